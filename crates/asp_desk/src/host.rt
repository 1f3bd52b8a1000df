//! A host: the core on a desk, and what it was given.
#![tactic(auto)]

use crate::bell::Bell;
use crate::stands::Placed;
use asp_core::Setting;
use asp_job::Runner;
use std::alloc::Global;
use std::marker::Model;
use std::sync::Arc;
use turn_desk::{Desk, Lane, Stands};

/// A core on a desk, with its runner, its site and its setting. It is generic in all that it holds, so that the check
/// finds that threads may share it.
#[derive(Drop)]
pub struct HostOf<S: Stands<Fixed = (R, T, Setting)>, R, T> {
    pub(crate) desk: Desk<S>,
    pub(crate) runner: R,
    pub(crate) site: T,
    pub(crate) setting: Setting,
    pub(crate) lanes: u32,
    // Room for all lanes, for the end.
    pub(crate) room: Vec<Lane<S>>,
    pub(crate) bell: Arc<Bell, Global>,
}

/// The host of a runner: it runs the jobs of a site.
pub type Host<R> = HostOf<Placed<R>, R, <R as Runner>::Site>;

impl<S: Stands<Fixed = (R, T, Setting)>, R, T> Model for HostOf<S, R, T> {
    ghost use Rattle.std.specs.Prelude.{◌≡◌, ◌≤◌, [], vec_capacity};
    ghost use Rattle.asp_desk.specs.Hands.{HostView, fixed_of};

    ghost Value = { HostView R T };

    ghost view = { λ host.
        record { desk = host.desk; runner = host.runner; site = host.site; setting = host.setting } };

    ghost invariant = { λ host. (host.desk.fixed ≡ fixed_of host.runner host.site host.setting)
        × (host.lanes ≡ host.desk.lanes) × (host.room.items ≡ []) × (host.desk.lanes ≤ vec_capacity host.room) };
}

impl<S: Stands<Fixed = (R, T, Setting)>, R, T> HostOf<S, R, T> {
    /// The bell that its calls ring.
    pub fn bell(&self) -> &Bell {
        &self.bell
    }
}
