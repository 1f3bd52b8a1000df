//! What the clients of a recording go by.
#![tactic(auto)]

ghost use Rattle.std.specs.Prelude.{◌≡◌, ◌<◌, OnOk};
ghost use Rattle.indexmap.specs.IndexMap.{spare};
ghost use Rattle.asp_feed.specs.Feeding as spec;

use asp_job::Asked;
use indexmap::IndexMap;
use vb_value::Memory;

/// The key of the last job of each client that was admitted with one.
pub type Clients = IndexMap<u32, u32>;

/// Room for one client more.
pub fn reserve_one(clients: &mut Clients) -> Result<(), Memory>
    ensures same { clients.new.entries ≡ clients.old.entries }
    ensures room { OnOk result (0 < spare clients.new) }
{
    clients.reserve(1)?;
    Ok(())
}

/// How the client asks for a key: client 0 by its cookie.
pub fn asked_by(clients: &Clients, client: u32) -> Asked
    ensures { result ≡ spec.asked_by clients.now.entries client }
{
    if client == 0 {
        return Asked::Cookie;
    }
    match clients.get(&client) {
        Some(key) => Asked::Key(*key),
        None => Asked::Fresh,
    }
}
