//! The sessions of a site: their keys, the runs that wait for them, and the letters by which clients know them.
#![tactic(auto)]

mod after;
mod cookie;
mod crossing;
mod key;
mod keys;
mod sessions;
mod stop;
mod waiting;

pub use after::After;
pub use cookie::{key_of_letters, letters};
pub use crossing::sessions_cross;
pub use sessions::Sessions;
pub use stop::KeyStop;
