//! What a journal tells of each run, in a row of its own.
#![tactic(auto)]

ghost use Rattle.std.specs.Prelude.{◌≡◌, ◌+◌, ◌-◌, ◌<◌, ◌≤◌, ◌==◌, ◌++◌, ◌∷◌, [], if◌then◌else◌, length};
ghost use Rattle.std.specs.Prelude.{vec_len, vec_capacity};
ghost use Rattle.asp_job.specs.Runs as runs;
ghost use Rattle.asp_journal.specs.Rows as spec;

use crate::told::{is_last_work, is_page};
use asp_job::{EndKind, Entry, Stage, What};

/// What a journal tells of a run.
#[derive(Clone, Copy, Debug)]
pub struct Row {
    pub stage: Stage,
    /// The session key; 0 for none.
    pub key: u32,
    pub fresh: bool,
    /// Whether it is the run of a page.
    pub page: bool,
    /// Whether it is the last run.
    pub last: bool,
    /// The lane of its Begin.
    pub lane: Option<u32>,
    /// The lane that asked for it.
    pub asking: Option<u32>,
    /// How it ended.
    pub kind: Option<EndKind>,
    /// Whether its answer was handed out.
    pub taken: bool,
    /// Where the entry that drew it stands in the journal.
    pub place: Option<usize>,
}

/// The row of a run.
pub fn look_up(rows: &[Row], run: u64) -> Row
    ensures { result ≡ spec.row_at rows.now run }
{
    if run == 0 || run > rows.len() as u64 {
        return Row {
            stage: Stage::Undrawn,
            key: 0,
            fresh: false,
            page: false,
            last: false,
            lane: None,
            asking: None,
            kind: None,
            taken: false,
            place: None,
        };
    }
    rows[(run - 1) as usize]
}

/// The run whose row an entry changes, 0 for none.
pub fn marked(what: &What) -> u32
    ensures { result ≡ spec.marked what.now }
{
    match what {
        What::Queue { run, .. }
        | What::Admit { run, .. }
        | What::Refuse { run, .. }
        | What::Begin { run, .. }
        | What::End { run, .. }
        | What::Take { run } => *run,
        _ => 0,
    }
}

/// The row of the run that an entry at the place changes.
fn changed(row: Row, place: usize, entry: &Entry) -> Row
    ensures { result ≡ spec.changed place entry.now.lane entry.now.what row }
{
    match &entry.what {
        What::Queue { work, key, .. } => Row {
            stage: Stage::Waiting,
            key: *key,
            fresh: false,
            page: is_page(work),
            last: is_last_work(work),
            place: Some(place),
            ..row
        },
        What::Admit {
            key,
            fresh,
            job,
            ..
        } => Row {
            stage: Stage::Waiting,
            key: *key,
            fresh: *fresh,
            page: is_page(&job.work),
            last: is_last_work(&job.work),
            asking: Some(entry.lane),
            place: Some(place),
            ..row
        },
        What::Refuse { job, .. } => Row {
            stage: Stage::Ended,
            key: 0,
            fresh: false,
            page: is_page(&job.work),
            last: is_last_work(&job.work),
            asking: Some(entry.lane),
            place: Some(place),
            ..row
        },
        What::Begin { .. } => Row {
            stage: Stage::Unfinished,
            lane: Some(entry.lane),
            ..row
        },
        What::End { kind, .. } => Row {
            stage: Stage::Ended,
            kind: Some(*kind),
            ..row
        },
        What::Take { .. } => Row { taken: true, ..row },
        _ => row,
    }
}

/// Puts a row in its place, or at the end.
#[tactic(auto, using(crate::proofs::Indexing::row_push, crate::proofs::Indexing::row_set, crate::proofs::Indexing::row_none))]
fn put(rows: &mut Vec<Row>, run: u32, row: Row)
    requires next { run ≤ length rows.old.items + 1 }
    requires room { vec_len rows.old < vec_capacity rows.old }
    ensures rows { spec.row_at rows.new.items ≡ spec.with_row run row (spec.row_at rows.old.items) }
    ensures capacity { vec_capacity rows.new ≡ vec_capacity rows.old }
    ensures few { vec_len rows.new ≤ vec_len rows.old + 1 }
    ensures length { length rows.new.items ≡ (if run == length rows.old.items + 1 then run else length rows.old.items) }
{
    if run == 0 {
        return;
    }
    if run as usize > rows.len() {
        rows.push_reserved(row);
    } else {
        rows[(run - 1) as usize] = row;
    }
}

/// The rows after an entry at the place.
#[tactic(auto, using(crate::proofs::Indexing::numbered_most))]
pub fn mark(rows: &mut Vec<Row>, place: usize, entry: &Entry)
    requires numbered { spec.IsNumberedFor (length rows.old.items) entry.now.what }
    requires room { vec_len rows.old < vec_capacity rows.old }
    ensures rows { spec.row_at rows.new.items
        ≡ spec.rows_after place entry.now.lane entry.now.what (spec.row_at rows.old.items) }
    ensures capacity { vec_capacity rows.new ≡ vec_capacity rows.old }
    ensures few { vec_len rows.new ≤ vec_len rows.old + 1 }
    ensures length { length rows.new.items
        ≡ (if runs.draws entry.now.what then length rows.old.items + 1 else length rows.old.items) }
{
    let run = marked(&entry.what);
    let row = changed(look_up(rows.as_slice(), run as u64), place, entry);
    put(rows, run, row);
}
