//! The request that a page answers, with its collections.
ghost use Rattle.std.specs.Prelude.{◌≡◌, IfOk, length};
ghost use Rattle.std.specs.Option.{option_copied};
ghost use Rattle.vb_value.specs.Outcome.{Gives};
ghost use Rattle.asp_request.specs.Inputs as inputs_spec;
ghost use Rattle.asp_request.specs.Pairs.{names_in};

use asp_job::Request;
use asp_request::{InSet, Inputs};
use std::alloc::Global;
use std::marker::Model;
use vb_value::{Bytes, Memory, Text, Value};

/// The request that a page answers, with its collections. Contracts see it as the request.
#[derive(Debug, Drop)]
pub struct Collections {
    request: Request,
    inputs: Inputs,
}

impl Model for Collections {
    ghost use Rattle.asp_job.specs.declared.request.Request.{Request};
    ghost use Rattle.asp_request.specs.Kept.{IsInputsOf};

    ghost Value = { Request };

    ghost view = { λ kept. kept.request };

    ghost invariant = { λ kept. IsInputsOf kept.request kept.inputs };
}

impl Collections {
    /// The collections of a request.
    pub fn of(alloc: Global, request: Request) -> Result<Collections, Memory>
        ensures { Gives result request }
    {
        let inputs = Inputs::of(alloc, &request)?;
        Ok(Collections { request, inputs })
    }

    /// The values of a name.
    pub(crate) fn values(&self, alloc: Global, set: InSet, name: &Text) -> Result<&[Text], Memory>
        ensures { IfOk result (λ values. values.now ≡ inputs_spec.values_of self.now set name.now) }
    {
        self.inputs.values(alloc, set, name)
    }

    /// The names of a collection.
    pub(crate) fn names(&self, set: InSet) -> &[Text]
        ensures { result.now ≡ names_in (inputs_spec.pairs_of self.now set) }
    {
        self.inputs.names(set)
    }

    /// A collection alone.
    pub(crate) fn raw(&self, set: InSet) -> &Text
        ensures { result.now ≡ inputs_spec.raw_of self.now set }
    {
        self.inputs.raw(set)
    }

    /// The values of a name in one text.
    pub(crate) fn joined(&self, alloc: Global, set: InSet, name: &Text) -> Result<Value, Memory>
        ensures { Gives result (inputs_spec.shown (inputs_spec.values_of self.now set name.now)) }
    {
        self.inputs.joined(alloc, set, name)
    }

    /// A cookie as it is written.
    pub(crate) fn raw_cookie(&self, alloc: Global, name: &Text) -> Result<Option<&Bytes>, Memory>
        ensures { IfOk result (λ raw. option_copied raw ≡ inputs_spec.raw_cookie_of self.now name.now) }
    {
        self.inputs.raw_cookie(alloc, name)
    }

    /// How many bytes the body has.
    pub(crate) fn body_bytes(&self) -> usize
        ensures { result ≡ length self.now.body }
    {
        self.request.body.len()
    }
}
