//! How deep arrays nest.
ghost use Rattle.std.specs.Prelude.{◌≡◌, nat_le};
ghost use Rattle.vb_value.specs.Plain.{depth_of};
ghost use Rattle.vb_heap.specs.Limits as spec;

use vb_value::{MOST_DEPTH, Value};

/// Whether the arrays of a value nest so deep at most. It recurses no deeper than that.
#[tactic(auto, using(crate::proofs::Depths::depths))]
fn nests_within(value: &Value, most: u32) -> bool
    ensures { result ≡ nat_le (depth_of value.now) most }
{
    match value {
        Value::Arr(array) => {
            if most == 0 {
                return false;
            }
            let mut within = true;
            for item in array.items.as_slice() {
                within = within && nests_within(item, most - 1);
            }
            within
        }
        _ => true,
    }
}

/// Whether arrays nest too deep where a value lies so many arrays deep.
pub fn is_too_deep(depth: usize, value: &Value) -> bool
    ensures { result ≡ spec.is_too_deep depth value.now }
{
    depth > MOST_DEPTH as usize || !nests_within(value, MOST_DEPTH - depth as u32)
}
