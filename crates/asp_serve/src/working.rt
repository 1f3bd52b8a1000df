//! Work at the host, until the answer of a run has come.
#![tactic(auto)]

ghost use Rattle.std.specs.Prelude.{◌≡◌, ◌==◌, ◌&&◌, None, Some, IfErr, IfNone, IfSome, OnOk, false};
ghost use Rattle.asp_desk.specs.Hands.{IsHandOf, rules_at};
ghost use Rattle.asp_serve.specs.Steps as spec;

use crate::ending::LinkEnd;
use asp_desk::{Gate, Hand, Host, Looked, Rung, Slice};
use asp_job::{Answer, Runner};
use std::sync::Wait;
use std::thread::yield_now;

/// What there is to do after a slice.
#[derive(Clone, Copy, Debug, PartialEq, Eq)]
pub enum Idle {
    /// More.
    No,
    /// Nothing, until another hand's call lets the run in hand go on.
    Blocked,
    /// Nothing, until a run may begin.
    Free,
}

/// A slice of the hand's work.
pub fn work<Rt: Wait, R: Runner, G: Gate>(
    rt: &Rt,
    host: &Host<R>,
    hand: &mut Hand<R>,
    gate: &G,
) -> Result<Idle, LinkEnd>
    requires { IsHandOf R.meaning R.stands host.now hand.old }
    ensures hand { IsHandOf R.meaning R.stands host.now hand.new }
    ensures ok { OnOk result (spec.Works hand.old.lane hand.new.lane) }
    ensures err { IfErr result (λ ended. spec.IsHindered (rules_at R.meaning host.now) (λ request. ⊥) false
        hand.old.lane hand.new.lane ended) }
{
    match host.work_slice(rt, hand, gate) {
        Slice::Worked => Ok(Idle::No),
        Slice::Held => {
            yield_now();
            Ok(Idle::No)
        }
        Slice::Blocked { holder: _ } => Ok(Idle::Blocked),
        Slice::Idle => Ok(Idle::Free),
        Slice::JournalFull(full) => Err(LinkEnd::JournalFull(full)),
        Slice::Memory => Err(LinkEnd::Memory),
    }
}

/// Whether no run ends any more.
fn is_over(looked: &Looked) -> bool
    ensures { result ≡ (looked.now.halted && looked.now.unfinished == 0) }
{
    looked.halted && looked.unfinished == 0
}

/// Sleeps until a run may begin, or another has ended. A host that is halted, and has no unfinished run, ends no other.
fn rest_free<Rt: Wait, R: Runner>(
    rt: &Rt,
    host: &Host<R>,
    hand: &mut Hand<R>,
    rung: Rung,
) -> Result<(), LinkEnd>
    requires { IsHandOf R.meaning R.stands host.now hand.old }
    ensures hand { IsHandOf R.meaning R.stands host.now hand.new }
    ensures ok { OnOk result (spec.Works hand.old.lane hand.new.lane) }
    ensures err { IfErr result (λ ended. spec.IsHindered (rules_at R.meaning host.now) (λ request. ⊥) false
        hand.old.lane hand.new.lane ended) }
{
    let looked = host.look(rt, hand);
    if is_over(&looked) {
        return Err(LinkEnd::Drained);
    }
    host.sleep(rt, hand, rung);
    Ok(())
}

/// Sleeps where there is nothing to do, until the bell has rung more often than so many times.
pub fn rest<Rt: Wait, R: Runner>(
    rt: &Rt,
    host: &Host<R>,
    hand: &mut Hand<R>,
    idle: Idle,
    rung: Rung,
) -> Result<(), LinkEnd>
    requires { IsHandOf R.meaning R.stands host.now hand.old }
    ensures hand { IsHandOf R.meaning R.stands host.now hand.new }
    ensures ok { OnOk result (spec.Works hand.old.lane hand.new.lane) }
    ensures err { IfErr result (λ ended. spec.IsHindered (rules_at R.meaning host.now) (λ request. ⊥) false
        hand.old.lane hand.new.lane ended) }
{
    match idle {
        Idle::No => Ok(()),
        Idle::Blocked => {
            host.sleep(rt, hand, rung);
            Ok(())
        }
        Idle::Free => rest_free(rt, host, hand, rung),
    }
}

/// The answer of the run, if the hand is free and the run has ended. It is the hand's lane that asked for it, and it was
/// not handed out.
fn collect<Rt: Wait, R: Runner>(
    rt: &Rt,
    host: &Host<R>,
    hand: &mut Hand<R>,
    run: u32,
) -> Option<Answer>
    requires { IsHandOf R.meaning R.stands host.now hand.old }
    ensures hand { IsHandOf R.meaning R.stands host.now hand.new }
    ensures none { IfNone result (spec.Works hand.old.lane hand.new.lane) }
    ensures some { IfSome result (λ answer. (hand.new.run ≡ None)
        × spec.HasCome (rules_at R.meaning host.now) run answer hand.old.lane hand.new.lane) }
{
    if hand.run().is_some() {
        return None;
    }
    match host.collect(rt, hand, run) {
        Ok(answer) => Some(answer),
        Err(_) => None,
    }
}

/// The answer of the run if it has come, or why it never does. Else it has slept, where there was nothing to do.
fn look_for<Rt: Wait, R: Runner>(
    rt: &Rt,
    host: &Host<R>,
    hand: &mut Hand<R>,
    run: u32,
    idle: Idle,
    rung: Rung,
) -> Option<Result<Answer, LinkEnd>>
    requires { IsHandOf R.meaning R.stands host.now hand.old }
    ensures hand { IsHandOf R.meaning R.stands host.now hand.new }
    ensures free { spec.IsFreed result hand.new.run }
    ensures waits { spec.Waits (rules_at R.meaning host.now) run hand.old.lane result hand.new.lane }
{
    match collect(rt, host, hand, run) {
        Some(answer) => Some(Ok(answer)),
        None => match rest(rt, host, hand, idle, rung) {
            Ok(()) => None,
            Err(ended) => Some(Err(ended)),
        },
    }
}

/// A slice of work, and then the same.
fn wait_round<Rt: Wait, R: Runner, G: Gate>(
    rt: &Rt,
    host: &Host<R>,
    hand: &mut Hand<R>,
    gate: &G,
    run: u32,
) -> Option<Result<Answer, LinkEnd>>
    requires { IsHandOf R.meaning R.stands host.now hand.old }
    ensures hand { IsHandOf R.meaning R.stands host.now hand.new }
    ensures free { spec.IsFreed result hand.new.run }
    ensures waits { spec.Waits (rules_at R.meaning host.now) run hand.old.lane result hand.new.lane }
{
    let rung = host.rung();
    match work(rt, host, hand, gate) {
        Ok(idle) => look_for(rt, host, hand, run, idle, rung),
        Err(ended) => Some(Err(ended)),
    }
}

/// Works until the answer of the run has come and the hand holds no run.
pub fn wait_for<Rt: Wait, R: Runner, G: Gate>(
    rt: &Rt,
    host: &Host<R>,
    hand: &mut Hand<R>,
    gate: &G,
    run: u32,
) -> Result<Answer, LinkEnd>
    requires { IsHandOf R.meaning R.stands host.now hand.old }
    ensures hand { IsHandOf R.meaning R.stands host.now hand.new }
    ensures free { OnOk result (hand.new.run ≡ None) }
    ensures waits { spec.Waits (rules_at R.meaning host.now) run hand.old.lane (Some result) hand.new.lane }
{
    for _ in rt.forever() {
        if let Some(came) = wait_round(rt, host, hand, gate, run) {
            return came;
        }
    }
    unreachable!()
}
