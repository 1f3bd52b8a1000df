//! Gates that hold runs back, runs that wait for one another, and hands that are missed.
ghost use Rattle.std.specs.Prelude.{◌≡◌, All, IfOk};
ghost use Rattle.asp_desk.specs.Hands.{IsHandOf};

use crate::hosts::{admitted, both_come, is_answered, opened, popped, pushed, sliced};
use crate::meetings::{Holding, Meeting, MeetingRunner};
use asp_desk::{Crew, Gate, Hand, Host, OpenGate, Slice, Task, Worker};
use asp_job::Runner;
use std::alloc::Global;
use std::sync::Wait;
use std::test::Fail;
use std::thread::Threads;
use vb_value::{List, Memory};
use word_runs::{AllWords, WordRunner};

/// A slice that the gate holds, after which the hand holds run 2.
fn is_held<Rt: Wait, R: Runner, G: Gate>(
    rt: &Rt,
    host: &Host<R>,
    hand: &mut Hand<R>,
    gate: &G,
) -> bool
    requires { IsHandOf R.meaning R.stands host.now hand.old }
    ensures { IsHandOf R.meaning R.stands host.now hand.new }
{
    let slice = sliced(rt, host, hand, gate);
    slice == Slice::Held && hand.run() == Some(2)
}

/// A slice after which the run of this number has ended and was answered.
fn is_worked<Rt: Wait, R: Runner, G: Gate>(
    rt: &Rt,
    host: &Host<R>,
    hand: &mut Hand<R>,
    gate: &G,
    run: u32,
) -> Result<bool, Fail>
    requires { IsHandOf R.meaning R.stands host.now hand.old }
    ensures { IsHandOf R.meaning R.stands host.now hand.new }
{
    let slice = sliced(rt, host, hand, gate);
    let is_answered = is_answered(rt, host, hand, run)?;
    Ok(slice == Slice::Worked && is_answered)
}

/// Whether a gate holds run 2 three times with the one hand, while run 3 ends with the other, and then lets it go.
fn held_back<Rt: Wait, R: Runner>(
    rt: &Rt,
    host: &Host<R>,
    hand: &mut Hand<R>,
    other: &mut Hand<R>,
) -> Result<bool, Fail>
    requires hand { IsHandOf R.meaning R.stands host.now hand.old }
    requires other { IsHandOf R.meaning R.stands host.now other.old }
{
    let gate = Holding::new(3);
    let one = is_held(rt, host, hand, &gate);
    let two = is_held(rt, host, hand, &gate);
    let passed = sliced(rt, host, other, &gate) == Slice::Worked;
    let answered = is_answered(rt, host, hand, 3)?;
    let three = is_held(rt, host, hand, &gate);
    let let_go = is_worked(rt, host, hand, &gate, 2)?;
    Ok(one && two && passed && answered && three && let_go)
}

/// The same at a host of its own.
fn held_at_a_host<Rt: Wait, R: Runner + Drop>(
    rt: &Rt,
    alloc: Global,
    runner: R,
    site: R::Site,
) -> Result<bool, Fail>
where
    R::Site: Drop,
    R::Store: Drop,
    R::State: Drop,
{
    let (host, mut hand, mut hands) = opened(rt, alloc, runner, site, 2)?;
    let mut other = popped(&host, &mut hands)?;
    let have_come = both_come(rt, alloc, &host, &mut hand)?;
    let is_held_back = held_back(rt, &host, &mut hand, &mut other)?;
    Ok(have_come && is_held_back)
}

/// Run 2 comes, and is held with this hand.
fn held_once<Rt: Wait, R: Runner>(
    rt: &Rt,
    alloc: Global,
    host: &Host<R>,
    hand: &mut Hand<R>,
) -> Result<bool, Fail>
    requires { IsHandOf R.meaning R.stands host.now hand.old }
    ensures { IsHandOf R.meaning R.stands host.now hand.new }
{
    let run = admitted(rt, alloc, host, hand, '2')?;
    let gate = Holding::new(1);
    Ok(run == 2 && is_held(rt, host, hand, &gate))
}

/// A host that is not to be closed with these hands, and the hands.
fn refused<R: Runner + Drop>(
    host: Host<R>,
    hands: List<Hand<R>>,
) -> Result<(Host<R>, List<Hand<R>>), Fail>
where
    R::Site: Drop,
    R::Store: Drop,
    R::State: Drop,
    requires { All (λ hand. IsHandOf R.meaning R.stands host hand) hands }
    ensures host { IfOk result (λ back. back.0 ≡ host) }
    ensures hands { IfOk result (λ back. back.1 ≡ hands) }
{
    match host.close(hands) {
        Ok(_) => Err(Fail::new("the host was closed")),
        Err(back) => Ok(back),
    }
}

/// A host that is not to be closed while this hand is missing, and all hands.
fn missed<R: Runner + Drop>(
    host: Host<R>,
    hands: List<Hand<R>>,
    hand: Hand<R>,
) -> Result<(Host<R>, List<Hand<R>>), Fail>
where
    R::Site: Drop,
    R::Store: Drop,
    R::State: Drop,
    requires all { All (λ hand. IsHandOf R.meaning R.stands host hand) hands }
    requires one { IsHandOf R.meaning R.stands host hand }
    ensures { IfOk result (λ back. All (λ hand. IsHandOf R.meaning R.stands back.0 hand) back.1) }
{
    let (host, hands) = refused(host, hands)?;
    let hands = pushed(&host, hands, hand)?;
    Ok((host, hands))
}

/// These hands, after a slice of the last.
fn worked<Rt: Wait, R: Runner>(
    rt: &Rt,
    host: &Host<R>,
    mut hands: List<Hand<R>>,
) -> Result<List<Hand<R>>, Fail>
where
    R::Store: Drop,
    R::State: Drop,
    requires { All (λ hand. IsHandOf R.meaning R.stands host.now hand) hands }
    ensures { IfOk result (λ back. All (λ hand. IsHandOf R.meaning R.stands host.now hand) back) }
{
    let mut hand = popped(host, &mut hands)?;
    let _ = sliced(rt, host, &mut hand, &OpenGate);
    Ok(pushed(host, hands, hand)?)
}

/// Whether a host is closed with these hands, after so many runs.
fn is_closed<R: Runner + Drop>(host: Host<R>, hands: List<Hand<R>>, runs: u32) -> bool
where
    R::Site: Drop,
    R::Store: Drop,
    R::State: Drop,
    requires { All (λ hand. IsHandOf R.meaning R.stands host hand) hands }
{
    match host.close(hands) {
        Ok((core, _, _)) => core.unfinished() == 0 && core.admitted() == runs,
        Err(_) => false,
    }
}

/// A host, and its hands, the last of which holds run 2. While that hand was missing the host was not to be closed.
fn gathered<Rt: Wait, R: Runner + Drop>(
    rt: &Rt,
    alloc: Global,
    runner: R,
    site: R::Site,
) -> Result<(Host<R>, List<Hand<R>>), Fail>
where
    R::Site: Drop,
    R::Store: Drop,
    R::State: Drop,
    ensures { IfOk result (λ back. All (λ hand. IsHandOf R.meaning R.stands back.0 hand) back.1) }
{
    let (host, mut hand, hands) = opened(rt, alloc, runner, site, 2)?;
    if !held_once(rt, alloc, &host, &mut hand)? {
        return Err(Fail::new("no gate holds run 2"));
    }
    missed(host, hands, hand)
}

/// Whether a host is closed once its last hand holds no run, and not before.
fn closed_at_last<Rt: Wait, R: Runner + Drop>(
    rt: &Rt,
    host: Host<R>,
    hands: List<Hand<R>>,
) -> Result<bool, Fail>
where
    R::Site: Drop,
    R::Store: Drop,
    R::State: Drop,
    requires { All (λ hand. IsHandOf R.meaning R.stands host hand) hands }
{
    let (host, hands) = refused(host, hands)?;
    let hands = worked(rt, &host, hands)?;
    Ok(is_closed(host, hands, 1))
}

/// The task to take one slice under this gate.
#[derive(Clone, Copy)]
struct Slicing<'a, G> {
    gate: &'a G,
}

impl<'a, Rt: Wait, R: Runner, G: Gate> Task<Rt, Host<R>, Worker<R, Slice>> for Slicing<'a, G> {
    ghost accepts = { λ task host worker. IsHandOf R.meaning R.stands host worker.hand };

    ghost does = { λ task host old new. IsHandOf R.meaning R.stands host new.hand };

    fn work(&self, rt: &Rt, shared: &Host<R>, worker: &mut Worker<R, Slice>) {
        worker.made = shared.work_slice(rt, &mut worker.hand, self.gate);
    }
}

/// A slice with each of these hands under this gate, each in a thread of its own: what they came to.
fn slices_at_once<Rt, R, G>(
    rt: &Rt,
    alloc: Global,
    host: &Host<R>,
    hands: List<Hand<R>>,
    gate: &G,
) -> Result<List<Slice>, Fail>
where
    Rt: Threads + Wait + Sync,
    R: Runner + Sync,
    R::Site: Sync,
    R::Store: Send + Drop,
    R::State: Send + Drop,
    G: Gate + Sync,
    requires { All (λ hand. IsHandOf R.meaning R.stands host.now hand) hands }
{
    let Ok(mut crew) = Crew::new(alloc, hands, Slice::Idle) else {
        return Err(Fail::from(Memory));
    };
    host.work_all(rt, &Slicing { gate }, &mut crew);
    let (_, made) = crew.part();
    Ok(made)
}

/// Whether runs 2 and 3 end in two threads under this gate, a slice each, and both are answered.
fn in_two_threads<Rt, R, G>(
    rt: &Rt,
    alloc: Global,
    runner: R,
    site: R::Site,
    gate: &G,
) -> Result<bool, Fail>
where
    Rt: Threads + Wait + Sync,
    R: Runner + Sync + Drop,
    R::Site: Sync + Drop,
    R::Store: Send + Drop,
    R::State: Send + Drop,
    G: Gate + Sync,
{
    let (host, mut hand, hands) = opened(rt, alloc, runner, site, 3)?;
    let have_come = both_come(rt, alloc, &host, &mut hand)?;
    let made = slices_at_once(rt, alloc, &host, hands, gate)?;
    let second = is_answered(rt, &host, &mut hand, 2)?;
    let third = is_answered(rt, &host, &mut hand, 3)?;
    let worked = made.as_slice() == [Slice::Worked, Slice::Worked].as_slice();
    Ok(have_come && worked && second && third)
}

/// A run that a gate holds back stays in its hand and keeps no other back.
#[test]
fn a_gate_holds_a_run(rt: HostRuntime) -> Result<(), Fail> {
    let alloc = rt.alloc();
    assert!(rt; held_at_a_host(&rt, alloc, WordRunner { alloc }, AllWords)?);
    Ok(())
}

/// A host is closed once all hands are back and none holds a run.
#[test]
fn a_hand_that_is_missed(rt: HostRuntime) -> Result<(), Fail> {
    let alloc = rt.alloc();
    let (host, hands) = gathered(&rt, alloc, WordRunner { alloc }, AllWords)?;
    assert!(rt; closed_at_last(&rt, host, hands)?);
    Ok(())
}

/// Runs in two threads wait for one another at a gate: each page begins its work before the other ends.
#[test]
fn two_pages_at_once(rt: HostRuntime) -> Result<(), Fail> {
    let alloc = rt.alloc();
    let meeting = Meeting::new();
    let both = in_two_threads(&rt, alloc, WordRunner { alloc }, AllWords, &meeting)?;
    assert!(rt; both && meeting.has_met());
    Ok(())
}

/// Runs in two threads wait for one another where they go on: no turn is held while a run goes on.
#[test]
fn slices_of_two_threads_meet(rt: HostRuntime) -> Result<(), Fail> {
    let alloc = rt.alloc();
    let meeting = Meeting::new();
    let runner = MeetingRunner {
        words: WordRunner { alloc },
        meeting: &meeting,
    };
    let both = in_two_threads(&rt, alloc, runner, AllWords, &OpenGate)?;
    assert!(rt; both && meeting.has_met());
    Ok(())
}
