//! The runs that wait.
ghost use Rattle.std.specs.Prelude.{◌≡◌};
ghost use Rattle.std.specs.Vec.{vec_capacity};
ghost use Rattle.asp_session.specs.Account as account;
ghost use Rattle.asp_session.specs.Steps as step;

use crate::key::Waiter;

/// Whether a run waits for a key.
pub fn waits(waiting: &[Waiter], key: u32) -> bool
    ensures { result ≡ account.waits key waiting.now }
{
    waiting.iter().any(|waiter| waiter.key == key)
}

/// Whether the first run that waits for a key is for the end of its session.
pub fn ends_next(waiting: &[Waiter], key: u32) -> bool
    ensures { result ≡ step.ends_next key waiting.now }
{
    for waiter in waiting {
        if waiter.key == key {
            return waiter.last;
        }
    }
    true
}

/// Takes the first run that waits for a key.
pub fn take_first(waiting: &mut Vec<Waiter>, key: u32)
    ensures items { waiting.new.items ≡ step.without_first key waiting.old.items }
    ensures capacity { vec_capacity waiting.new ≡ vec_capacity waiting.old }
{
    for at in 0..waiting.len() {
        if waiting[at].key == key {
            waiting.remove(at);
            return;
        }
    }
}
