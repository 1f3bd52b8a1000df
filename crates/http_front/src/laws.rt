//! What holds of the definitions, whoever reads the bytes.
ghost use Rattle.std.specs.Prelude.{◌≡◌, ◌++◌, ℕ, List};
ghost use Rattle.http_front.specs.Front.{Front, IsFront, Taken, IsStream, StaysWith};
ghost use Rattle.http_front.specs.Shortest.{IsByShortest};

/// Bytes give one thing first.
pub fn one_front()
    ensures { (bytes : List ℕ) (one other : Front) → IsFront bytes one → IsFront bytes other → one ≡ other }
{}

/// It is what the shortest prefix that decides gives.
pub fn front_by_shortest()
    ensures { (bytes : List ℕ) (front : Front) → IsFront bytes front → IsByShortest bytes front }
{}

/// A request and a refusal stay, whatever follows the bytes.
pub fn front_stays()
    ensures { (bytes more : List ℕ) (front : Front) → IsFront bytes front → StaysWith bytes more front }
{}

/// Bytes have one stream.
pub fn one_stream()
    ensures { (bytes : List ℕ) (ts us : List Taken) (rest left : List ℕ) (one other : Front)
        → IsStream bytes ts rest one → IsStream bytes us left other
        → (ts ≡ us) × (rest ≡ left) × (one ≡ other) }
{}

/// The stream of joined bytes is that of the first, and then that of what it left and the others.
pub fn stream_of_join()
    ensures { (bytes more : List ℕ) (ts us : List Taken) (rest left : List ℕ) (first last : Front)
        → IsStream bytes ts rest first → IsStream (rest ++ more) us left last
        → IsStream (bytes ++ more) (ts ++ us) left last }
{}
