//! What pages see of a request.
ghost use Rattle.std.specs.Prelude.{◌≡◌, ℕ, List as Items, IfOk};
ghost use Rattle.std.specs.Option.{option_copied};
ghost use Rattle.vb_value.specs.Folding.{folded};
ghost use Rattle.vb_value.specs.Outcome.{Gives};
ghost use Rattle.asp_job.specs.declared.request.Request.{Request as Asked};
ghost use Rattle.asp_request.specs.Inputs as spec;
ghost use Rattle.asp_request.specs.Kept.{IsInputsOf};
ghost use Rattle.asp_request.specs.Pairs.{names_in};

use crate::collection::Collection;
use crate::cookies::Cookies;
use crate::field::collect_form;
use crate::keys::shown;
use crate::query::collect_query;
use crate::server::collect_server;
use crate::text::text_of;
use asp_job::Request;
use std::alloc::Global;
use vb_value::{Bytes, Memory, Text, Value, fold};

/// A collection of the Request object, or the object itself.
#[derive(Clone, Copy, Debug, PartialEq, Eq)]
pub enum InSet {
    /// QueryString, Form, Cookies and ServerVariables, in this order: the first that has a name.
    All,
    /// QueryString.
    Query,
    /// Form.
    Form,
    /// Cookies.
    Cookies,
    /// ServerVariables.
    Server,
}

/// The collections of a request (ASP 3.0, "Request Object"). A name is found in time that grows with the logarithm of
/// their number.
#[derive(Debug, Drop)]
pub struct Inputs {
    query: Collection,
    form: Collection,
    cookies: Cookies,
    server: Collection,
    raw_query: Text,
    raw_form: Text,
    nothing: Text,
}

impl Inputs {
    /// The collections of `request`.
    pub fn of(alloc: Global, request: &Request) -> Result<Inputs, Memory>
        ensures { IfOk result (IsInputsOf request.now) }
    {
        Ok(Inputs {
            query: collect_query(alloc, request.query.as_slice())?,
            form: collect_form(alloc, request)?,
            cookies: Cookies::of(alloc, request.headers.as_slice())?,
            server: collect_server(alloc, request)?,
            raw_query: text_of(alloc, request.query.as_slice())?,
            raw_form: text_of(alloc, request.body.as_slice())?,
            nothing: Text::new(alloc),
        })
    }

    /// The values of a folded name: those of the first collection that has it.
    fn first_values(&self, name: &Text) -> &[Text]
        ensures { (request : Asked) (written : Items ℕ) → IsInputsOf request self.now → name.now ≡ folded written →
            result.now ≡ spec.values_of request InSet.All written }
    {
        let query = self.query.values(name);
        if !query.is_empty() {
            return query;
        }
        let form = self.form.values(name);
        if !form.is_empty() {
            return form;
        }
        let cookies = self.cookies.collection().values(name);
        if !cookies.is_empty() {
            return cookies;
        }
        self.server.values(name)
    }

    /// The values of a folded name, in their order; none where the name is absent.
    fn values_of(&self, set: InSet, name: &Text) -> &[Text]
        ensures { (request : Asked) (written : Items ℕ) → IsInputsOf request self.now → name.now ≡ folded written →
            result.now ≡ spec.values_of request set written }
    {
        match set {
            InSet::All => self.first_values(name),
            InSet::Query => self.query.values(name),
            InSet::Form => self.form.values(name),
            InSet::Cookies => self.cookies.collection().values(name),
            InSet::Server => self.server.values(name),
        }
    }

    /// The values of `name`, in any ASCII case, in their order; none where the name is absent.
    pub fn values(&self, alloc: Global, set: InSet, name: &Text) -> Result<&[Text], Memory>
        ensures { (request : Asked) → IsInputsOf request self.now →
            IfOk result (λ values. values.now ≡ spec.values_of request set name.now) }
    {
        Ok(self.values_of(set, &fold(alloc, name)?))
    }

    /// The names of a collection, in the order in which they first appear; none of the Request object itself.
    #[tactic(auto, unfolding(crate::specs::Pairs::firsts))]
    pub fn names(&self, set: InSet) -> &[Text]
        ensures { (request : Asked) → IsInputsOf request self.now →
            result.now ≡ names_in (spec.pairs_of request set) }
    {
        match set {
            InSet::All => &[],
            InSet::Query => self.query.names(),
            InSet::Form => self.form.names(),
            InSet::Cookies => self.cookies.collection().names(),
            InSet::Server => self.server.names(),
        }
    }

    /// A collection alone: the text of the query, of the body, and nothing for the others.
    pub fn raw(&self, set: InSet) -> &Text
        ensures { (request : Asked) → IsInputsOf request self.now → result.now ≡ spec.raw_of request set }
    {
        match set {
            InSet::Query => &self.raw_query,
            InSet::Form => &self.raw_form,
            InSet::All | InSet::Cookies | InSet::Server => &self.nothing,
        }
    }

    /// The values of `name` in one text, with `, ` between them, and Empty where the name is absent.
    pub fn joined(&self, alloc: Global, set: InSet, name: &Text) -> Result<Value, Memory>
        ensures { (request : Asked) → IsInputsOf request self.now →
            Gives result (spec.shown (spec.values_of request set name.now)) }
    {
        shown(alloc, self.values(alloc, set, name)?)
    }

    /// The value of the cookie `name`, in any ASCII case, as it is written.
    pub fn raw_cookie(&self, alloc: Global, name: &Text) -> Result<Option<&Bytes>, Memory>
        ensures { (request : Asked) → IsInputsOf request self.now →
            IfOk result (λ raw. option_copied raw ≡ spec.raw_cookie_of request name.now) }
    {
        Ok(self.cookies.raw(&fold(alloc, name)?))
    }
}
