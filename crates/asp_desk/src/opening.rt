//! How a host begins.
#![tactic(auto)]

ghost use Rattle.std.specs.Prelude.{◌≡◌, ◌≤◌, All, IfErr, IfOk, [], length, map, vec_capacity};
ghost use Rattle.turn_desk.specs.Shown.{new_lanes};
ghost use Rattle.asp_core.specs.Kernel.{setting_of};
ghost use Rattle.asp_desk.specs.Hands.{IsHandOf, fixed_of};
ghost use Rattle.asp_desk.specs.Opening as spec;

use crate::bell::Bell;
use crate::hand::{Hand, HandOf, Load};
use crate::host::{Host, HostOf};
use crate::stands::Placed;
use asp_core::{Core, Setting};
use asp_job::Runner;
use std::alloc::Global;
use std::sync::Arc;
use turn_desk::{Desk, Lane};
use vb_value::{List, Memory};

/// Room for so many runs.
fn stores<R: Runner>(alloc: Global, runner: &R, count: u32) -> Result<Vec<R::Store>, Memory>
where
    R::Store: Drop,
    ensures { IfOk result (λ stores. length stores.items ≡ count) }
{
    let mut stores = Vec::with_capacity(alloc, count as usize)?;
    for made in 0..count {
        let store = runner.store()?;
        stores.push_reserved(store);
    }
    Ok(stores)
}

/// Gives each lane a hand of its own.
fn dealt<R: Runner>(
    lanes: Vec<Lane<Placed<R>>>,
    mut stores: Vec<R::Store>,
    mut hands: Vec<Hand<R>>,
) -> Vec<Hand<R>>
where
    R::Store: Drop,
    requires stores { length stores.items ≡ length lanes.items }
    requires room { (hands.items ≡ []) × (length lanes.items ≤ vec_capacity hands) }
    ensures { result.items ≡ map spec.free_hand lanes.items }
{
    for lane in lanes {
        match stores.pop() {
            Some(store) => hands.push_reserved(HandOf {
                lane: Some(lane),
                load: Some(Load::Free(store)),
            }),
            None => unreachable!(),
        }
    }
    hands
}

/// All that a host is made of but its runner and its site; and its hands.
#[tactic(auto, using(crate::proofs::Fresh::of_first))]
fn parts<R: Runner>(
    alloc: Global,
    runner: &R,
    site: &R::Site,
    setting: Setting,
    lanes: u32,
) -> Result<
    (
        Desk<Placed<R>>,
        Vec<Lane<Placed<R>>>,
        Arc<Bell, Global>,
        Vec<Hand<R>>,
    ),
    Memory,
>
where
    R::Store: Drop,
    requires { (1 ≤ lanes) × (lanes ≤ 32) }
    ensures desk { IfOk result (λ made. (made.0.lanes ≡ lanes)
        × (made.0.fixed ≡ fixed_of runner.now site.now setting)) }
    ensures room { IfOk result (λ made. (made.1.items ≡ []) × (lanes ≤ vec_capacity made.1)) }
    ensures hands { IfOk result (λ made. made.3.items
        ≡ map spec.free_hand (new_lanes (λ entry. entry.lane) made.0 spec.first_journal)) }
{
    let room = Vec::with_capacity(alloc, lanes as usize)?;
    let bell = Arc::new(alloc, Bell::new())?;
    let stores = stores(alloc, runner, lanes)?;
    let core = Core::new(alloc, 0, runner, site, setting.seed, setting.strict)?;
    let (desk, dealt_lanes) = Desk::new(alloc, Placed { core }, lanes)?;
    let hands = Vec::with_capacity(alloc, lanes as usize)?;
    Ok((
        desk,
        room,
        bell,
        dealt(dealt_lanes.into_vec(), stores, hands),
    ))
}

impl<R: Runner> HostOf<Placed<R>, R, R::Site> {
    /// A host of the site with so many hands, numbered from 0. Its journal queues the first run. Where there is no
    /// memory for it, the runner and the site come back.
    #[tactic(auto, using(crate::proofs::Fresh::new_hands_are))]
    pub fn new(
        alloc: Global,
        runner: R,
        site: R::Site,
        seed: [u8; 32],
        strict: bool,
        lanes: u32,
    ) -> Result<(Host<R>, List<Hand<R>>), (R, R::Site, Memory)>
    where
        R::Store: Drop,
        requires { (1 ≤ lanes) × (lanes ≤ 32) }
        ensures host { IfOk result (λ made. (made.0.runner ≡ runner) × (made.0.site ≡ site)
            × (made.0.setting ≡ setting_of seed strict) × (made.0.desk.lanes ≡ lanes)) }
        ensures new { IfOk result (λ made. made.1 ≡ spec.new_hands made.0) }
        ensures hands { IfOk result (λ made. All (λ hand. IsHandOf R.meaning R.stands made.0 hand) made.1) }
        ensures back { IfErr result (λ back. (back.0 ≡ runner) × (back.1 ≡ site)) }
    {
        let setting = Setting { seed, strict };
        match parts(alloc, &runner, &site, setting, lanes) {
            Ok((desk, room, bell, hands)) => {
                let host = HostOf {
                    desk,
                    runner,
                    site,
                    setting,
                    lanes,
                    room,
                    bell,
                };
                Ok((host, List::from_vec(hands)))
            }
            Err(Memory) => Err((runner, site, Memory)),
        }
    }
}
