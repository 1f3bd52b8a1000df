//! The core of a host: it keeps the journal of a site's runs, one event after another.
#![tactic(auto)]

mod account;
mod admit;
mod admitted;
mod begin;
mod book;
mod calls;
mod cookie;
mod crossing;
mod drawing;
mod ends;
mod entries;
mod events;
mod hands;
mod house;
mod kernel;
mod keys;
mod laws;
mod opening;
mod ready;
mod room;
mod run;
mod setting;
mod stop;
mod tables;
mod takes;
mod tellers;

pub use admitted::Admitted;
pub use crossing::core_crosses;
pub use house::{House, HouseOf, Housed};
pub use kernel::{Core, CoreOf};
pub use laws::{
    account_steps, answer_stays, answers_wait, events_bear_lane, holder_is_unfinished, run_stays,
    runs_stay, some_run_may_begin,
};
pub use ready::{BODY_ROOM, MOST_BODY_BYTES};
pub use run::{Progress, Run, StandIns};
pub use setting::Setting;
pub use stop::{AdmitStop, AppStepStop, BeginStop, CollectStop, EventStop};
pub use tables::{Keeps, Tables};
