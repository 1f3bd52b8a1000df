//! Queries and forms.
ghost use Rattle.std.specs.Prelude.{IfOk};
ghost use Rattle.asp_request.specs.Collection.{Collects};
ghost use Rattle.asp_request.specs.Request as spec;

use crate::collection::Collection;
use crate::text::decoded;
use form_urlencoded::raw_pairs;
use std::alloc::Global;
use vb_value::Memory;

/// The names and values of a query or a form.
pub(crate) fn collect_query(alloc: Global, bytes: &[u8]) -> Result<Collection, Memory>
    ensures { IfOk result (λ kept. Collects kept (spec.query_pairs bytes.now)) }
{
    let mut kept = Collection::new(alloc);
    for (name, value) in raw_pairs(bytes) {
        kept.add(decoded(alloc, name)?, decoded(alloc, value)?)?;
    }
    Ok(kept)
}
