//! Laws of replays. The functions do nothing but call up the laws that theirs stand on: their contracts are the laws.
ghost use Rattle.replay_laws.specs.Laws.{NoLineBegins, OneHistory, OneJournal, OneJournalOfLines, OneLines, OneOutput};
ghost use Rattle.replay_laws.specs.Laws.{OneReplay, OneReplayOfBytes};

use asp_record::one_recording;
use http_front::one_front;

/// A recording has one history of one lane.
pub fn one_history()
    ensures { OneHistory }
{
    one_front();
}

/// A journal has one output, with its lines and without.
pub fn one_output()
    ensures { OneOutput }
{}

/// The output of a history of one lane is a function of the items of its recording, and so of the bytes that have the
/// recording at their front.
pub fn one_replay()
    ensures items { OneReplay }
    ensures bytes { OneReplayOfBytes }
{
    one_front();
    one_recording();
}

/// The items and the lines of a journal determine it, but for the entries that have no line. So do the items and the
/// bytes that a replay wrote with the lines.
pub fn one_journal()
    ensures begins { NoLineBegins }
    ensures lines { OneLines }
    ensures journal { OneJournalOfLines }
    ensures replayed { OneJournal }
{
    one_front();
    asp_record::one_journal();
    asp_record::journal_not_refused();
}
