//! Hosts of runs of words, their hands and the pages that come to them.
ghost use Rattle.std.specs.Prelude.{◌≡◌, ◌≤◌, All, IfOk, length, true};
ghost use Rattle.asp_desk.specs.Hands.{IsHandOf};
ghost use Rattle.asp_job.specs.Running.{is_page};
ghost use Rattle.asp_job.specs.Size.{IsSmall};

use asp_desk::{Gate, Hand, Host, OpenGate, Slice};
use asp_job::{Asked, Job, Request, Runner, Verb, Work};
use std::alloc::Global;
use std::sync::Wait;
use std::test::Fail;
use vb_value::{Bytes, List, Memory, Text};

/// What is sent to each page, and what each page answers.
const SENT: &[u8] = b"A3B";

/// The last of these hands.
#[tactic(auto, using(crate::proofs::Lanes::left, crate::proofs::Lanes::taken))]
pub fn popped<R: Runner>(host: &Host<R>, hands: &mut List<Hand<R>>) -> Result<Hand<R>, Fail>
    requires { All (λ hand. IsHandOf R.meaning R.stands host.now hand) hands.old }
    ensures hand { IfOk result (λ hand. IsHandOf R.meaning R.stands host.now hand) }
    ensures hands { All (λ hand. IsHandOf R.meaning R.stands host.now hand) hands.new }
{
    match hands.pop() {
        Some(hand) => Ok(hand),
        None => Err(Fail::from(Memory)),
    }
}

/// These hands with one more.
pub fn pushed<R: Runner>(
    host: &Host<R>,
    mut hands: List<Hand<R>>,
    hand: Hand<R>,
) -> Result<List<Hand<R>>, Memory>
where
    R::Store: Drop,
    R::State: Drop,
    requires all { All (λ hand. IsHandOf R.meaning R.stands host.now hand) hands }
    requires one { IsHandOf R.meaning R.stands host.now hand }
    ensures { IfOk result (λ hands. All (λ hand. IsHandOf R.meaning R.stands host.now hand) hands) }
{
    hands.push(hand)?;
    Ok(hands)
}

/// A slice of a hand.
pub fn sliced<Rt: Wait, R: Runner, G: Gate>(
    rt: &Rt,
    host: &Host<R>,
    hand: &mut Hand<R>,
    gate: &G,
) -> Slice
    requires { IsHandOf R.meaning R.stands host.now hand.old }
    ensures { IsHandOf R.meaning R.stands host.now hand.new }
{
    host.work_slice(rt, hand, gate)
}

/// A host whose first run has ended, its last hand, and the others.
pub fn opened<Rt: Wait, R: Runner + Drop>(
    rt: &Rt,
    alloc: Global,
    runner: R,
    site: R::Site,
    lanes: u32,
) -> Result<(Host<R>, Hand<R>, List<Hand<R>>), Fail>
where
    R::Site: Drop,
    R::Store: Drop,
    R::State: Drop,
    requires { (1 ≤ lanes) × (lanes ≤ 32) }
    ensures hand { IfOk result (λ made. IsHandOf R.meaning R.stands made.0 made.1) }
    ensures others { IfOk result (λ made. All (λ hand. IsHandOf R.meaning R.stands made.0 hand) made.2) }
{
    let Ok((host, mut hands)) = Host::new(alloc, runner, site, [0; 32], false, lanes) else {
        return Err(Fail::from(Memory));
    };
    let mut hand = popped(&host, &mut hands)?;
    if sliced(rt, &host, &mut hand, &OpenGate) != Slice::Worked {
        return Err(Fail::new("the first run has not ended"));
    }
    Ok((host, hand, hands))
}

/// The path `/e` and a letter.
fn path(alloc: Global, letter: char) -> Result<Text, Memory>
    ensures { IfOk result (λ path. length path ≡ 3) }
{
    let mut path = Text::new(alloc);
    path.push('/')?;
    path.push('e')?;
    path.push(letter)?;
    Ok(path)
}

/// The job of that page, whose answer is what is sent.
fn job(alloc: Global, letter: char) -> Result<Job, Memory>
    ensures page { IfOk result (λ job. is_page job.work ≡ true) }
    ensures small { IfOk result IsSmall }
{
    Ok(Job {
        work: Work::Page(Request {
            verb: Verb::Post,
            path: path(alloc, letter)?,
            query: Bytes::new(alloc),
            minor: 1,
            headers: List::new(alloc),
            body: Bytes::from_slice(alloc, SENT)?,
            close: false,
        }),
        moment: 0,
        asked: Asked::Key(0),
    })
}

/// That job comes: the number of its run.
pub fn admitted<Rt: Wait, R: Runner>(
    rt: &Rt,
    alloc: Global,
    host: &Host<R>,
    hand: &mut Hand<R>,
    letter: char,
) -> Result<u32, Fail>
    requires { IsHandOf R.meaning R.stands host.now hand.old }
    ensures { IsHandOf R.meaning R.stands host.now hand.new }
{
    let job = job(alloc, letter)?;
    let told = host.admit(rt, hand, &job)?;
    Ok(told.run)
}

/// The pages of runs 2 and 3 come: whether their runs have these numbers.
pub fn both_come<Rt: Wait, R: Runner>(
    rt: &Rt,
    alloc: Global,
    host: &Host<R>,
    hand: &mut Hand<R>,
) -> Result<bool, Fail>
    requires { IsHandOf R.meaning R.stands host.now hand.old }
    ensures { IsHandOf R.meaning R.stands host.now hand.new }
{
    let second = admitted(rt, alloc, host, hand, '2')?;
    let third = admitted(rt, alloc, host, hand, '3')?;
    Ok(second == 2 && third == 3)
}

/// Whether the answer of a run that has ended is what was sent.
pub fn is_answered<Rt: Wait, R: Runner>(
    rt: &Rt,
    host: &Host<R>,
    hand: &mut Hand<R>,
    run: u32,
) -> Result<bool, Fail>
    requires { IsHandOf R.meaning R.stands host.now hand.old }
    ensures { IsHandOf R.meaning R.stands host.now hand.new }
{
    let answer = host.collect(rt, hand, run)?;
    Ok(answer.status == 200 && answer.body.as_slice() == SENT)
}
