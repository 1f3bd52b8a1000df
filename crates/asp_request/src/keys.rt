//! The keys of a cookie.
ghost use Rattle.vb_value.specs.Outcome.{Gives};
ghost use Rattle.asp_request.specs.Inputs as spec;
ghost use Rattle.asp_request.specs.Pairs.{values_in};
ghost use Rattle.asp_request.specs.Request.{query_pairs};

use crate::query::collect_query;
use crate::text::join;
use std::alloc::Global;
use vb_value::{Memory, Text, Value, fold};

/// The values in one text, with `, ` between them, and Empty without any.
pub(crate) fn shown(alloc: Global, values: &[Text]) -> Result<Value, Memory>
    ensures { Gives result (spec.shown values.now) }
{
    if values.is_empty() {
        return Ok(Value::Empty);
    }
    Ok(Value::Str(join(alloc, values)?))
}

/// What stands beside `key`, in any ASCII case, in the value of a cookie as it is written, which is read as a query is.
///
/// It reads the value of this one cookie alone.
pub fn keyed(alloc: Global, raw: &[u8], key: &Text) -> Result<Value, Memory>
    ensures { Gives result (spec.shown (values_in (query_pairs raw.now) key.now)) }
{
    let pairs = collect_query(alloc, raw)?;
    shown(alloc, pairs.values(&fold(alloc, key)?))
}
