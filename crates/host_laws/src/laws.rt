//! Laws of the host's commands. The functions do nothing but call up the laws that theirs stand on: their contracts are
//! the laws.
ghost use Rattle.host_laws.specs.Heads.{HeadsStayWhole};
ghost use Rattle.host_laws.specs.Laws.{CheckRefusesNone, GenRefusesNone, GetRefusesNone};
ghost use Rattle.host_laws.specs.Laws.{OneGenJournal, OneGetOutput, OneOutcome, OneReplayJournal, OneReplayOutput, OneSite};
ghost use Rattle.host_laws.specs.Laws.{ReplayRefusesNone, ServeRefusesNone};
ghost use Rattle.host_laws.specs.Objects.{ObjectsEnd};

use asp_acts::{objects_end_in_runs, runs_answer_sound};
use asp_record::{one_recording, recording_not_refused};
use asp_response::{fixed_answers_are_sound, heads_are_whole};
use page_read::one_outcome;
use replay_laws::{one_journal, one_replay};
use site_load::site_or_fault;
use vb_lex::one_token_list;
use vb_parse::laws::one_unit;
use vb_scope::one_program;

/// A folder is one site.
pub fn one_site()
    ensures { OneSite }
{
    one_outcome();
    one_token_list();
    one_unit();
    one_program();
}

/// A request to a host of its own comes to one outcome: its answer, or why it has none.
pub fn one_request_outcome()
    ensures { OneOutcome }
{}

/// A command refuses nothing without a cause: where its folder is a site and what it is given is fit, it does all of
/// its work, unless memory runs out or the outside fails.
pub fn nothing_refused_without_cause()
    ensures check { CheckRefusesNone }
    ensures get { GetRefusesNone }
    ensures replay { ReplayRefusesNone }
    ensures serve { ServeRefusesNone }
    ensures generated { GenRefusesNone }
{
    one_site();
    one_request_outcome();
    site_or_fault();
    one_recording();
    recording_not_refused();
}

/// What a replay writes is a function of the files and the bytes that it reads, where memory runs out for no run.
pub fn one_replay_output()
    ensures { OneReplayOutput }
{
    one_site();
    one_recording();
    one_replay();
}

/// A recording and what a replay with `--journal` wrote of it determine the journal, but for the entries that have no
/// line.
pub fn one_replay_journal()
    ensures { OneReplayJournal }
{
    one_recording();
    one_journal();
}

/// How many requests `gen` made and what it wrote of them with `--journal` determine the journal, but for the entries that
/// have no line.
pub fn one_gen_journal()
    ensures { OneGenJournal }
{
    one_journal();
}

/// What `get` writes where it answers `Ok` is a function of the files that it reads, of its path and of its query.
pub fn one_get_output()
    ensures { OneGetOutput }
{
    one_site();
    one_request_outcome();
}

/// Each object ends once: in a valid journal of a site's runs, a run that ended by itself has ended as many objects as it
/// made, where no limit ended an act of it.
pub fn objects_end()
    ensures { ObjectsEnd }
{
    objects_end_in_runs();
}

/// No head of an answer can be split: the bytes of each answer that a journal has for a run are lines of printable
/// characters, each ended by CR LF, and then the empty line and the content.
pub fn heads_stay_whole()
    ensures { HeadsStayWhole }
{
    heads_are_whole();
    fixed_answers_are_sound();
    runs_answer_sound();
}
