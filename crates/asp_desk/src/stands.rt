//! The core, as it stands on a desk.
ghost use Rattle.asp_core.specs.declared.setting.Setting.{Setting as Set};

use asp_core::{Core, Setting};
use asp_job::{Entry, Runner};
use turn_desk::Stands;

/// A core on a desk. It is a type of this crate, so that it may stand there.
#[derive(Drop)]
pub struct Placed<R: Runner> {
    pub(crate) core: Core<R>,
}

impl<R: Runner> Stands for Placed<R> {
    type Entry = Entry;

    type Fixed = (R, R::Site, Setting);

    ghost lane_of = { λ entry. entry.lane };

    ghost entries = { λ placed. placed.core.journal };

    ghost fixed = { λ placed. (placed.core.runner, placed.core.site, placed.core.setting) };

    fn length(&self) -> u64 {
        self.core.length()
    }
}
