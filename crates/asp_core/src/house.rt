//! What a core was given.
#![tactic(auto)]

ghost use Rattle.asp_job.specs.Rules.{Rules};
ghost use Rattle.asp_core.specs.Kernel.{rules_by};
ghost use Rattle.asp_core.specs.declared.setting.Setting.{Setting as Set};

use crate::setting::Setting;
use asp_job::Runner;
use std::snapshot::Snapshot;

/// What a journal is held against, by what a core was given.
pub trait Housed {
    /// What runs the jobs.
    type Host;

    /// The site that the runs are of.
    type Site;

    /// The runner, the site and the setting.
    ghost runner: { Self → Self.Host };

    ghost site: { Self → Self.Site };

    ghost setting: { Self → Set };

    /// The rules that come of them.
    ghost rules: { Self → Rules };
}

/// A runner and a site, of which nothing is stored, and a setting.
#[derive(Drop)]
pub struct HouseOf<R, S> {
    pub(crate) runner: Snapshot<R>,
    pub(crate) site: Snapshot<S>,
    pub(crate) setting: Setting,
}

/// What the core of a runner was given.
pub type House<R> = HouseOf<R, <R as Runner>::Site>;

impl<R: Runner> Housed for HouseOf<R, R::Site> {
    type Host = R;

    type Site = R::Site;

    ghost runner = { λ house. house.runner.value };

    ghost site = { λ house. house.site.value };

    ghost setting = { λ house. house.setting };

    ghost rules = { λ house. rules_by (R.meaning house.runner.value house.site.value) house.setting };
}

/// What a call is lent: the runner and the site that the core was given, with its setting.
#[derive(Drop)]
pub(crate) struct Lent<'a, R, S> {
    pub runner: &'a R,
    pub site: &'a S,
    pub setting: Setting,
}
