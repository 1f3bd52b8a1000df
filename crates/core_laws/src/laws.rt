//! Laws of valid journals, and of a core whose memory has run out. The functions do nothing but call up the laws that
//! theirs stand on: their contracts are the laws.
ghost use Rattle.std.specs.Prelude.{◌≡◌, ◌≢◌, ◌≤◌, ℕ, true, false, List, [], ◌∷◌, ◌++◌, Some};
ghost use Rattle.asp_job.specs.declared.answer.Answer.{Answer};
ghost use Rattle.asp_job.specs.declared.entry.EndKind.{EndKind};
ghost use Rattle.asp_job.specs.declared.entry.EndKind.TheVariants.{Memory};
ghost use Rattle.asp_job.specs.declared.entry.Entry.{Entry};
ghost use Rattle.asp_job.specs.declared.entry.What.TheVariants.{End, Take};
ghost use Rattle.asp_job.specs.History.{calls_of_run, held_by, run_in, with_lane};
ghost use Rattle.asp_job.specs.Journal.{AreRight, IsValidJournal, end_entry, past_after};
ghost use Rattle.asp_job.specs.Keys.{session_of, told};
ghost use Rattle.asp_job.specs.Rules.{Rules};
ghost use Rattle.asp_job.specs.Runs.{is_unfinished, key_of};
ghost use Rattle.asp_job.specs.Turns.{IsRunning};
ghost use Rattle.asp_core.specs.Kernel.{IsWithin};
ghost use Rattle.asp_core.specs.Laws.{NoneIs};
ghost use Rattle.asp_core.specs.Ready.{ready};
ghost use Rattle.core_laws.specs.Alone.{alone};
ghost use Rattle.core_laws.specs.Given.{AreOfFirst, AreOfLaneFirst, for_lane, given, hand_outs, handed, hands_out, made_by};
ghost use Rattle.core_laws.specs.Laws.{IsEndedWithoutMemory};
ghost use Rattle.core_laws.specs.Locks.{is_kept_out, is_release_of, with_rule};
ghost use Rattle.core_laws.specs.Wanted.{AreWanted};

use asp_core::{answer_stays, answers_wait, holder_is_unfinished};

/// Whatever has begun can be ended where memory has run out, since `end` and `collect` of a core take none: the End which
/// says that memory ran out fits into each journal that is within the bounds of a core, behind it the run has ended and
/// has no lock, its answer waits, and the lane that asked for it is handed it.
pub fn begun_is_ended()
    ensures { (rules : Rules) (past : List Entry) (lane run : ℕ) →
        IsValidJournal rules past → IsWithin past → IsRunning past lane run →
        IsEndedWithoutMemory rules past lane run }
{
    end_fits();
    answer_stays();
    holder_is_unfinished();
    answers_wait();
}

/// While a run has the lock, no other run has a call that the lock keeps out: none writes, and none takes the lock. Under
/// the strict rule none has a call at all, but for `Unlock`.
pub fn lock_holds()
    ensures { (rules : Rules) (past entries : List Entry) (run : ℕ) →
        AreRight rules (past_after past entries) → (held_by past).holder ≡ Some run →
        NoneIs (is_release_of run) entries → NoneIs (is_kept_out rules.strict run) entries }
{}

/// A journal that is valid under the strict rule is valid under the plain one, whose lock keeps out fewer calls.
pub fn strict_is_plain()
    ensures { (rules : Rules) (past : List Entry) →
        IsValidJournal (with_rule rules true) past → IsValidJournal (with_rule rules false) past }
{}

/// The answer of a run is handed out once at most.
pub fn handed_out_once()
    ensures { (rules : Rules) (past : List Entry) (run : ℕ) → AreRight rules past → hand_outs past run ≤ 1 }
{}

/// An unfinished run can always be ended: its lane may write that memory ran out, and the End of a run, of any kind and
/// with any numbers, fits into each journal that is within the bounds of a core.
pub fn end_fits()
    ensures may { (rules : Rules) (past : List Entry) (lane run : ℕ) →
        IsValidJournal rules past → IsRunning past lane run →
        IsValidJournal rules (end_entry rules past lane run Memory ∷ past) }
    ensures within { (rules : Rules) (past : List Entry) (lane run : ℕ) (kind : EndKind)
        (status length made finished : ℕ) →
        AreRight rules past → IsWithin past → is_unfinished past run ≡ true →
        IsWithin (with_lane lane (End run kind status length made finished) ∷ past) }
{}

/// A run makes the calls that its meaning wants, each once and in that order: where it was told what it began with and
/// the first n replies, its meaning wants the call after its first n calls. There are as many replies as calls.
pub fn calls_follow()
    ensures { (rules : Rules) (past : List Entry) (run : ℕ) →
        AreRight rules past → AreWanted rules.meaning (told rules past run) (calls_of_run past run) }
{}

/// Answers wait in the order in which their runs ended. Each entry but a hand-out adds the answer that it makes, if it
/// makes one, to all answers and to those that wait. The hand-out of the first that waits leaves the others. Where all
/// hand-outs were such, those that were handed out and then those that wait are all answers, in order. Where each was
/// that of the first that waits for its lane, the same holds of the answers of each lane.
pub fn answers_in_order()
    ensures made { (rules : Rules) (past : List Entry) (entry : Entry) →
        hands_out entry.what ≡ false →
        (given rules (entry ∷ past) ≡ given rules past ++ made_by rules past entry.what)
        × (ready rules (entry ∷ past) ≡ ready rules past ++ made_by rules past entry.what) }
    ensures hand_out { (rules : Rules) (past : List Entry) (lane run : ℕ) (answer : Answer)
        (before rest : List (ℕ × Answer)) →
        given rules past ≡ before ++ ready rules past → ready rules past ≡ (run, answer) ∷ rest →
        given rules (with_lane lane (Take run) ∷ past)
        ≡ (before ++ (run, answer) ∷ []) ++ ready rules (with_lane lane (Take run) ∷ past) }
    ensures all { (rules : Rules) (past : List Entry) →
        AreOfFirst rules past → given rules past ≡ handed rules past ++ ready rules past }
    ensures lanes { (rules : Rules) (past : List Entry) (lane : ℕ) →
        AreRight rules past → AreOfLaneFirst rules past →
        for_lane past lane (given rules past)
        ≡ for_lane past lane (handed rules past) ++ for_lane past lane (ready rules past) }
{}

/// The runs of a session key decide its session, and no others do. Leave out of a journal all entries but those of the
/// runs of the key: its session is the same, and each of those runs was told the same.
pub fn sessions_apart()
    ensures left_out { (past : List Entry) (entry : Entry) (key : ℕ) →
        key_of (entry ∷ past) (run_in entry.what) ≢ key → alone (entry ∷ past) key ≡ alone past key }
    ensures session { (rules : Rules) (past : List Entry) (key : ℕ) →
        AreRight rules past → session_of rules past key ≡ session_of rules (alone past key) key }
    ensures told { (rules : Rules) (past : List Entry) (run : ℕ) →
        AreRight rules past → told rules past run ≡ told rules (alone past (key_of past run)) run }
{}
