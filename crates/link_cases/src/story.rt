//! The story of a host: connections, and what another hand does between them.
ghost use Rattle.std.specs.Prelude.{All, IfSome};
ghost use Rattle.asp_desk.specs.Hands.{IsHandOf};

use crate::disturbed::Disturbed;
use crate::plan::{Plan, cut_at};
use crate::serving::{write_of_hand, write_of_other};
use asp_desk::{Hand, Host};
use asp_job::Runner;
use case_files::{Answer, CaseStop};
use std::sync::Wait;
use vb_value::{Bytes, List};

/// Whether the step is the hand's that serves.
fn is_of_hand(step: &str) -> bool {
    step == "again" || step.starts_with("link")
}

/// Takes the last hand.
fn take_hand<R: Runner>(host: &Host<R>, hands: &mut List<Hand<R>>) -> Option<Hand<R>>
    requires { All (λ hand. IsHandOf R.meaning R.stands host.now hand) hands.old }
    ensures rest { All (λ hand. IsHandOf R.meaning R.stands host.now hand) hands.new }
    ensures hand { IfSome result (λ hand. IsHandOf R.meaning R.stands host.now hand) }
{
    hands.pop()
}

/// Goes through the steps, and writes what each tells.
fn write_steps<Rt: Wait, R: Runner>(
    rt: &Rt,
    out: &mut Answer,
    host: &Host<R>,
    hand: &mut Hand<R>,
    other: &mut Hand<R>,
    steps: &str,
    plan: Plan,
)
    requires hand { IsHandOf R.meaning R.stands host.now hand.old }
    requires other { IsHandOf R.meaning R.stands host.now other.old }
{
    let mut link = Disturbed::new(Bytes::new(out.alloc()), plan);
    let mut between = "";
    for step in steps.split(" ;; ") {
        out.put(between);
        between = " ;; ";
        if is_of_hand(step) {
            write_of_hand(rt, out, host, hand, &mut link, step, plan);
        } else {
            write_of_other(rt, out, host, other, step);
        }
    }
}

/// Goes through the steps with the last two hands.
fn write_hands<Rt: Wait, R: Runner>(
    rt: &Rt,
    out: &mut Answer,
    host: &Host<R>,
    mut hands: List<Hand<R>>,
    steps: &str,
    plan: Plan,
)
where
    R::State: Drop,
    R::Store: Drop,
    requires { All (λ hand. IsHandOf R.meaning R.stands host.now hand) hands }
{
    let Some(mut other) = take_hand(host, &mut hands) else {
        out.stop(CaseStop::Memory);
        return;
    };
    match take_hand(host, &mut hands) {
        Some(mut hand) => write_steps(rt, out, host, &mut hand, &mut other, steps, plan),
        None => out.stop(CaseStop::Memory),
    }
}

/// Tells a story of a new host with a seed of noughts, on whose connections the first read gives at most so many bytes.
pub fn write_story<Rt: Wait, R: Runner>(
    rt: &Rt,
    out: &mut Answer,
    runner: R,
    site: R::Site,
    steps: &str,
    first: usize,
)
where
    R: Drop,
    R::Site: Drop,
    R::State: Drop,
    R::Store: Drop,
{
    match Host::new(out.alloc(), runner, site, [0; 32], false, 2) {
        Ok((host, hands)) => write_hands(rt, out, &host, hands, steps, cut_at(first)),
        Err(_back) => out.stop(CaseStop::Memory),
    }
}
