//! What values weigh.
ghost use Rattle.std.specs.Prelude.{◌≡◌, ◌-◌, ◌^◌, min};
ghost use Rattle.vb_value.specs.Weight.{weight_of};

use crate::value::Value;

/// The weight of a value: 32 and 4 a character for a text, 32 and its items for an array, 32 for another
/// value. 2^64 - 1 stands for a greater one. It recurses once for each array inside another.
#[tactic(auto, using(crate::proofs::Arrays::weight_arr))]
pub fn weight(value: &Value) -> u64
    ensures { result ≡ min (weight_of value.now) (2 ^ 64 - 1) }
{
    match value {
        Value::Str(text) => (text.len() as u64).saturating_mul(4).saturating_add(32),
        Value::Arr(array) => {
            let mut total: u64 = 32;
            for item in array.items.as_slice() {
                total = total.saturating_add(weight(item));
            }
            total
        }
        _ => 32,
    }
}
