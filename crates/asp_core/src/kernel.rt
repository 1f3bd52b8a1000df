//! The core: it keeps the journal, and what the journal says.
#![tactic(auto)]

ghost use Rattle.std.specs.Prelude.{◌≡◌, ◌+◌, ◌-◌, ◌^◌, ◌<◌, ◌≤◌, ◌++◌, ◌∷◌, [], List as Items, reverse, length, OnOk};
ghost use Rattle.std.specs.Prelude.{OnErr, IfOk, IfErr, IsOk};
ghost use Rattle.std.specs.Prelude.{Some, None, Err, true, false, ◌↔◌, ◌≢◌, IsSome};
ghost use Rattle.asp_job.specs.History as history;
ghost use Rattle.asp_job.specs.Journal as journals;
ghost use Rattle.asp_job.specs.Runs as runs;
ghost use Rattle.asp_journal.specs.declared.full.Full.{Full};
ghost use Rattle.asp_core.specs.Kernel.{CoreView, RunView, past_of, rules_of, grown};
ghost use Rattle.asp_core.specs.Kernel.{AreWellFormed, IsHostOf, IsTooMuch, IsWithin};
ghost use Rattle.asp_core.specs.Kernel.{IsRunOf, expired, setting_of};
ghost use Rattle.asp_core.specs.Ready.{IsAnswered};

use crate::book::Book;
use crate::events::{with_stop, with_tick};
use crate::house::{House, HouseOf, Housed};
use crate::setting::Setting;
use crate::stop::EventStop;
use crate::tables::{Keeps, Tables};
use asp_app::Application;
use asp_job::{Entry, Runner, What, Work};
use asp_session::Sessions;
use std::alloc::Global;
use std::marker::Model;
use std::snapshot::Snapshot;
use vb_value::Memory;

/// A core: what it keeps, and what it was given. It is generic in both, so that the check finds that it may go to another
/// thread.
#[derive(Drop)]
pub struct CoreOf<K: Keeps, H: Housed> {
    pub(crate) kept: K,
    pub(crate) house: H,
}

/// The core of a host: the journal of the runs of a site.
pub type Core<R> = CoreOf<Tables, House<R>>;

impl<K: Keeps, H: Housed> Model for CoreOf<K, H> {
    ghost use Rattle.std.specs.Coded.{codes};
    ghost use Rattle.vb_value.specs.contracts.value.Value as contract;
    ghost use Rattle.asp_core.specs.Kernel.{CoreView};

    ghost Value = { CoreView H.Host H.Site };

    ghost coded = { Prim.hlevel (codes, contract.the_row.coded, H.Host.code, H.Site.code) };

    ghost view = { λ c. record {
      journal = K.journal c.kept;
      runner = H.runner c.house;
      site = H.site c.house;
      setting = H.setting c.house;
    } };

    ghost invariant = { λ c. K.keeps c.kept (H.rules c.house) };
}

impl<R: Runner> Core<R> {
    /// A core whose journal queues the first run. Later calls take the same runner and site.
    #[tactic(auto, using(crate::proofs::Starting::sound_start))]
    pub fn new(
        alloc: Global,
        lane: u32,
        runner: &R,
        site: &R::Site,
        seed: [u8; 32],
        strict: bool,
    ) -> Result<Core<R>, Memory>
        ensures journal { IfOk result (λ core. core.journal ≡ history.with_lane lane (What.Queue 1 Work.Start 0) ∷ []) }
        ensures host { IfOk result (λ core. IsHostOf core runner.now site.now) }
        ensures setting { IfOk result (λ core. core.setting ≡ setting_of seed strict) }
    {
        Ok(CoreOf {
            kept: Tables {
                book: Book::new(alloc, lane)?,
                sessions: Sessions::new(alloc, seed),
                application: Application::new(alloc, strict),
                start_fail: None,
            },
            house: HouseOf {
                runner: Snapshot::of(runner),
                site: Snapshot::of(site),
                setting: Setting { seed, strict },
            },
        })
    }

    /// The journal, which is valid and well formed. A run that ended left an answer exactly where it was that of a page.
    pub fn journal(&self) -> &[Entry]
        ensures journal { result.now ≡ self.now.journal }
        ensures valid { journals.IsValidJournal (rules_of R.meaning self.now) (past_of self.now) }
        ensures answered { IsAnswered (rules_of R.meaning self.now) (past_of self.now) }
        ensures within { IsWithin (past_of self.now) }
        ensures formed { AreWellFormed (past_of self.now) }
    {
        self.kept.book.journal().entries()
    }

    /// The moment of the last Tick, 0 before the first: seconds since 1970.
    pub fn moment(&self) -> u64
        ensures { result ≡ runs.moment_of (past_of self.now) }
    {
        self.kept.book.journal().moment()
    }

    /// How many entries the journal has. Those of hand-outs and of a Halt do not count.
    pub fn entries(&self) -> u64
        ensures { result ≡ history.entries_in (past_of self.now) }
    {
        self.kept.book.journal().entries_in()
    }

    /// How many entries the journal has, those of hand-outs and of a Halt too.
    #[tactic(auto, using(crate::proofs::Lengths::short_journal))]
    pub fn length(&self) -> u64
        ensures length { result ≡ length self.now.journal }
        ensures short { result < 2 ^ 32 }
    {
        self.kept.book.journal().len() as u64
    }

    /// How many runs are unfinished.
    pub fn unfinished(&self) -> u32
        ensures { result ≡ length (runs.unfinished (past_of self.now)) }
    {
        self.kept.book.journal().unfinished() as u32
    }

    /// Whether a Stop stands.
    pub fn stopping(&self) -> bool
        ensures { result ≡ runs.is_stopping (past_of self.now) }
    {
        self.kept.book.journal().is_stopping()
    }

    /// Whether a Halt stands.
    pub fn halted(&self) -> bool
        ensures { result ≡ runs.is_halted (past_of self.now) }
    {
        self.kept.book.journal().is_halted()
    }

    /// Time goes on to `moment`, in seconds since 1970, and sessions end: it answers how many keys' sessions. An earlier
    /// moment changes nothing and takes no memory. A refusal changes nothing.
    pub fn tick(&mut self, lane: u32, moment: u64) -> Result<u32, EventStop>
        ensures ok { OnOk result (self.new ≡ grown self.old
            (journals.tick_entries (rules_of R.meaning self.old) (past_of self.old) lane moment)) }
        ensures count { IfOk result (λ count. count
            ≡ expired (rules_of R.meaning self.old) (past_of self.old) moment) }
        ensures full { (full : Full) → result ≡ Err (EventStop.JournalFull full) →
            IsTooMuch (journals.past_after (past_of self.old)
            (journals.tick_entries (rules_of R.meaning self.old) (past_of self.old) lane moment)) full }
        ensures early { moment ≤ runs.moment_of (past_of self.old) → IsOk result }
        ensures err { OnErr result (self.new ≡ self.old) }
    {
        if moment <= self.kept.book.journal().moment() {
            return Ok(0);
        }
        with_tick(
            &self.house,
            &mut self.kept.book,
            &mut self.kept.sessions,
            lane,
            moment,
        )
    }

    /// No job is admitted from now on, and the sessions end. After a Stop it changes nothing. A refusal changes
    /// nothing.
    pub fn stop(&mut self, lane: u32) -> Result<(), EventStop>
        ensures ok { OnOk result (runs.is_stopping (past_of self.old) ≡ false → self.new ≡ grown self.old
            (journals.stop_entries (rules_of R.meaning self.old) (past_of self.old) lane)) }
        ensures again { runs.is_stopping (past_of self.old) ≡ true → IsOk result × (self.new ≡ self.old) }
        ensures full { (full : Full) → result ≡ Err (EventStop.JournalFull full) →
            IsTooMuch (journals.past_after (past_of self.old)
            (journals.stop_entries (rules_of R.meaning self.old) (past_of self.old) lane)) full }
        ensures err { OnErr result (self.new ≡ self.old) }
    {
        if self.kept.book.journal().is_stopping() {
            return Ok(());
        }
        with_stop(
            &self.house,
            &mut self.kept.book,
            &mut self.kept.sessions,
            lane,
        )
    }
}
