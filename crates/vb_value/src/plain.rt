//! Values that a session or the application may keep.
ghost use Rattle.std.specs.Prelude.{◌≡◌, ◌↔◌, ◌&&◌, IsTrue, not, nat_le};
ghost use Rattle.vb_value.specs.Plain.{IsPlain, has_reference, depth_of};

use crate::value::Value;

/// How deep arrays may nest in a value.
pub const MOST_DEPTH: u32 = 64;

/// Whether a value may be kept by a session or by the application: it holds neither an object nor Nothing,
/// and its arrays nest 64 deep at most. It recurses no deeper than that.
#[tactic(auto, using(crate::proofs::Plainness::plain_from, crate::proofs::Plainness::plain_to))]
pub fn is_plain(value: &Value) -> bool
    ensures { IsTrue result ↔ IsPlain value.now }
{
    is_plain_within(value, MOST_DEPTH)
}

/// The same, for arrays that nest so deep at most.
#[tactic(auto, using(crate::proofs::Plainness::plain_arrays))]
fn is_plain_within(value: &Value, depth: u32) -> bool
    ensures { result ≡ (not (has_reference value.now) && nat_le (depth_of value.now) depth) }
{
    match value {
        Value::Obj(_) | Value::Nothing => false,
        Value::Arr(array) => {
            if depth == 0 {
                return false;
            }
            let mut plain = true;
            for item in array.items.as_slice() {
                plain = plain && is_plain_within(item, depth - 1);
            }
            plain
        }
        _ => true,
    }
}
