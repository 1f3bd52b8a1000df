//! The Application object.
ghost use Rattle.std.specs.Prelude.{◌≡◌, ◌≢◌, IfOk, Err, false};
ghost use Rattle.vb_value.specs.Outcome.{Answers, Changes};
ghost use Rattle.asp_job.specs.Application as application;
ghost use Rattle.asp_job.specs.Calls.{IsAppCall, IsReply};
ghost use Rattle.asp_app.specs.Answers.{answer_of, takes_memory};
ghost use Rattle.asp_app.specs.View.{first_view, with_state};

use crate::entries::Entries;
use crate::stop::AppStop;
use std::alloc::Global;
use std::marker::Model;
use vb_value::{AppCall, AppReply, Memory};

/// The Application object of a site (ASP 3.0, "Application Object"): named values, and a lock that one run may have.
#[derive(Drop)]
pub struct Application {
    strict: bool,
    entries: Entries,
    holder: Option<u32>,
}

impl Model for Application {
    ghost use Rattle.std.specs.Coded.{codes};
    ghost use Rattle.vb_value.specs.contracts.value.Value as contract;
    ghost use Rattle.asp_app.specs.View.{AppView};

    ghost Value = { AppView };

    ghost coded = { Prim.hlevel (codes, contract.the_row.coded) };

    ghost view = { λ held. record {
      strict = held.strict;
      state = record { entries = held.entries; holder = held.holder };
    } };
}

/// Whether the call is one that another run's lock keeps out.
fn is_guarded(strict: bool, call: &AppCall) -> bool
    ensures { result ≡ application.is_guarded strict call.now }
{
    match call {
        AppCall::Put(..) | AppCall::Remove(_) | AppCall::RemoveAll | AppCall::Lock => true,
        AppCall::Get(_) | AppCall::Count | AppCall::KeyAt(_) | AppCall::Names => strict,
        AppCall::Unlock => false,
    }
}

impl Application {
    /// Without entries, and its lock free. Where `strict` holds, its lock keeps readers out too. It takes no memory yet.
    pub fn new(alloc: Global, strict: bool) -> Application
        ensures { result ≡ first_view strict }
    {
        Application {
            strict,
            entries: Entries::new(alloc),
            holder: None,
        }
    }

    /// Whether its lock keeps readers out too.
    pub fn strict(&self) -> bool
        ensures { result ≡ self.now.strict }
    {
        self.strict
    }

    /// The run that has the lock, if one has it.
    pub fn holder(&self) -> Option<u32>
        ensures { result ≡ self.now.state.holder }
    {
        self.holder
    }

    /// The run whose lock keeps this call of a run out, if one does.
    pub fn blocker(&self, run: u32, call: &AppCall) -> Option<u32>
        ensures { result ≡ application.blocker_of self.now.strict self.now.state run call.now }
    {
        if self.holder == Some(run) || !is_guarded(self.strict, call) {
            None
        } else {
            self.holder
        }
    }

    /// Lets the lock go if the run has it, as the run's end does.
    pub fn free(&mut self, run: u32)
        ensures { self.new ≡ with_state self.old (application.freed run self.old.state) }
    {
        if self.holder == Some(run) {
            self.holder = None;
        }
    }

    /// A call of a run, with its reply. It is refused where another run's lock keeps it out. Names in it are folded, and a
    /// value that it puts is one that runs may share. `RemoveAll`, `Count`, `Lock` and `Unlock` take no memory.
    pub fn call(&mut self, run: u32, call: &AppCall) -> Result<AppReply, AppStop>
        requires { IsAppCall call.now }
        ensures reply { Answers result AppStop.Memory (answer_of self.old.strict self.old.state run call.now) }
        ensures state { Changes result self.old self.new
            (with_state self.old (application.apply self.old.state run call.now).0) }
        ensures shared { IfOk result IsReply }
        ensures memory { takes_memory call.now ≡ false → result ≢ Err AppStop.Memory }
    {
        if let Some(holder) = self.blocker(run, call) {
            return Err(AppStop::Blocked { holder });
        }
        match call {
            AppCall::Get(name) => Ok(AppReply::Value(self.entries.value(name)?)),
            AppCall::Put(name, value) => {
                if self.entries.put(name, value)? {
                    Ok(AppReply::Done)
                } else {
                    Ok(AppReply::Full)
                }
            }
            AppCall::Remove(name) => {
                self.entries.remove(name)?;
                Ok(AppReply::Done)
            }
            AppCall::RemoveAll => {
                self.entries.clear();
                Ok(AppReply::Done)
            }
            AppCall::Count => Ok(AppReply::Number(self.entries.len() as i32)),
            AppCall::KeyAt(place) => Ok(self.entries.name_at(*place)?),
            AppCall::Names => Ok(AppReply::Names(self.entries.names()?)),
            AppCall::Lock => {
                self.holder = Some(run);
                Ok(AppReply::Done)
            }
            AppCall::Unlock => {
                self.free(run);
                Ok(AppReply::Done)
            }
        }
    }
}
