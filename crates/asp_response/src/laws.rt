//! What holds of answers, whoever makes them.
ghost use Rattle.std.specs.Prelude.{ℕ, ◌≤◌, Bool, List, Option};
ghost use Rattle.asp_job.specs.declared.answer.Answer.{Answer};
ghost use Rattle.asp_response.specs.AnswerText.{IsAnswerText};
ghost use Rattle.asp_response.specs.Calls.{DraftCall, said_by};
ghost use Rattle.asp_response.specs.Finish.{finished};
ghost use Rattle.asp_response.specs.Fixed.{not_allowed_of, status_answer_of, unavailable_of};
ghost use Rattle.asp_response.specs.HeadSize.{head_size};
ghost use Rattle.asp_response.specs.Sound.{ArePrintable, HasWholeLines, IsSound};
ghost use Rattle.asp_response.specs.declared.fixed.Unavailable.{Unavailable};

/// No line of a head that leaves can be split: the bytes of a sound answer are lines of printable characters, each ended
/// by CR LF, and then the empty line and the content.
pub fn heads_are_whole()
    ensures { (answer : Answer) (moment : ℕ) (bytes : List ℕ)
        → IsSound answer → IsAnswerText answer moment bytes → HasWholeLines bytes }
{}

/// Whatever a page says of its answer, in any calls, the answer is sound, given letters of a session's key that are
/// printable.
pub fn drafts_finish_sound()
    ensures { (calls : List DraftCall) (letters failure : Option (List ℕ)) (head_only close : Bool)
        → ArePrintable letters → IsSound (finished (said_by calls) letters failure head_only close) }
{}

/// However a page says its answer, its own lines of the head take at most 65,536 bytes.
pub fn heads_stay_small()
    ensures { (calls : List DraftCall) → head_size (said_by calls) ≤ 65536 }
{}

/// The answers whose text is fixed are sound.
pub fn fixed_answers_are_sound()
    ensures statuses { (status : ℕ) (head_only close : Bool) → IsSound (status_answer_of status head_only close) }
    ensures methods { (page head_only close : Bool) → IsSound (not_allowed_of page head_only close) }
    ensures causes { (cause : Unavailable) (head_only close : Bool) → IsSound (unavailable_of cause head_only close) }
{}
