//! Gates, and a runner whose runs wait for one another.
ghost use Rattle.std.specs.Prelude.{◌≡◌};

use asp_desk::{Gate, Verdict};
use asp_job::{Finished, Job, Runner, SessionState, Step};
use std::hint::spin_loop;
use std::sync::atomic::{AtomicBool, AtomicU64, Ordering};
use std::thread::yield_now;
use vb_value::{AppReply, Memory, Text};
use word_runs::{AllWords, NoStore, WordRun, WordRunner};

/// How often a run turns, at most, before it gives the other up.
const TURNS: u32 = 100_000_000;

/// Where runs 2 and 3 wait for one another.
#[derive(Drop)]
pub struct Meeting {
    second: AtomicBool,
    third: AtomicBool,
    gave_up: AtomicBool,
}

impl Meeting {
    /// Neither has come.
    pub const fn new() -> Meeting {
        Meeting {
            second: AtomicBool::new(false),
            third: AtomicBool::new(false),
            gave_up: AtomicBool::new(false),
        }
    }

    /// Turns until the other has come, or gives up. At every 256th turn other threads go first, so that on a machine that
    /// is busy the other comes in time.
    fn turn(&self, other: &AtomicBool) {
        for count in 0..TURNS {
            if other.load(Ordering::SeqCst) {
                return;
            }
            if count % 256 == 0 {
                yield_now();
            } else {
                spin_loop();
            }
        }
        self.gave_up.store(true, Ordering::SeqCst);
    }

    /// A run comes. Runs 2 and 3 wait for one another, others don't.
    pub fn come(&self, run: u32) {
        match run {
            2 => {
                self.second.store(true, Ordering::SeqCst);
                self.turn(&self.third);
            }
            3 => {
                self.third.store(true, Ordering::SeqCst);
                self.turn(&self.second);
            }
            _ => {}
        }
    }

    /// Whether both have come, and neither gave the other up.
    pub fn has_met(&self) -> bool {
        let both = self.second.load(Ordering::SeqCst) && self.third.load(Ordering::SeqCst);
        both && !self.gave_up.load(Ordering::SeqCst)
    }
}

/// Runs come to the meeting where they pass, and are never held.
impl Gate for Meeting {
    ghost may_hold = { λ gate run. ⊥ };

    fn pass(&self, run: u32) -> Verdict {
        self.come(run);
        Verdict::Go
    }
}

/// A gate that holds run 2 back so many times.
#[derive(Drop)]
pub struct Holding {
    times: AtomicU64,
}

impl Holding {
    /// It has held no run yet.
    pub const fn new(times: u64) -> Holding {
        Holding {
            times: AtomicU64::new(times),
        }
    }
}

impl Gate for Holding {
    ghost may_hold = { λ gate run. run ≡ 2 };

    fn pass(&self, run: u32) -> Verdict {
        if run == 2 && self.times.load(Ordering::SeqCst) > 0 {
            self.times.fetch_sub(1, Ordering::SeqCst);
            return Verdict::Hold;
        }
        Verdict::Go
    }
}

/// A runner of words. Runs of `/e2` and `/e3` come to the meeting where they go on, as runs 2 and 3.
#[derive(Drop)]
pub struct MeetingRunner<'a> {
    pub words: WordRunner,
    pub meeting: &'a Meeting,
}

/// As which run a run of words comes to the meeting.
fn comes_as(run: &WordRun) -> u32 {
    let Some(page) = &run.page else {
        return 0;
    };
    match page.word.get(2) {
        Some('2') => 2,
        Some('3') => 3,
        _ => 0,
    }
}

impl<'a> Runner for MeetingRunner<'a> {
    ghost use Rattle.word_runs.specs.Words.{Stands, phase_at, meaning as meaning_of_words};
    ghost use Rattle.asp_job.specs.Running.{Never};

    type Site = AllWords;

    type Store = NoStore;

    type State = WordRun;

    ghost meaning = { λ _ _. meaning_of_words };

    ghost pace = { λ _. Never };

    ghost stands = { λ _ _ run told _. Stands run told };

    ghost phase = { λ run. phase_at run.at };

    fn store(&self) -> Result<NoStore, Memory> {
        self.words.store()
    }

    fn keyed(&self, site: &AllWords, job: &Job) -> bool {
        self.words.keyed(site, job)
    }

    fn start(
        &self,
        site: &AllWords,
        job: &Job,
        session: Option<SessionState>,
        is_new: bool,
        cookie: Option<Text>,
        store: NoStore,
    ) -> Result<WordRun, (NoStore, Memory)> {
        self.words.start(site, job, session, is_new, cookie, store)
    }

    fn go(&self, site: &AllWords, run: &mut WordRun, quantum: u32) -> Result<Step, Memory> {
        self.meeting.come(comes_as(run));
        self.words.go(site, run, quantum)
    }

    fn feed(&self, run: &mut WordRun, reply: AppReply) {
        self.words.feed(run, reply)
    }

    fn finish(&self, run: WordRun) -> (Option<Finished>, NoStore) {
        self.words.finish(run)
    }
}
