//! The objects that a page is given.
ghost use Rattle.std.specs.Prelude.{◌≡◌, codes};
ghost use Rattle.vb_value.specs.Outcome.{Gives};
ghost use Rattle.asp_objects.specs.Members as spec;

use crate::collections::Collections;
use crate::session::HeldSession;
use crate::text::ascii;
use asp_job::Request;
use asp_response::Draft;
use std::alloc::Global;
use vb_value::{Memory, Text};

/// The objects that an act is given (ASP 3.0, "Built-in Objects"): the request, what was said so far, and the session.
#[derive(Debug, Drop)]
pub struct PageObjects {
    /// Whether Request and Response are there: in a page, and in Session_OnStart before it.
    pub is_page: bool,
    /// The request that the page answers.
    pub request: Collections,
    /// The path of the page's file.
    pub page: Text,
    /// The answer so far.
    pub draft: Draft,
    /// `Response.Buffer`, as it is read.
    pub buffer: bool,
    /// `Response.ContentType`, as it is read.
    pub content_type: Text,
    /// `Response.Charset`, as it is read.
    pub charset: Text,
    /// `Response.Status`, as it is read.
    pub status: Text,
    /// `Response.CacheControl`, as it is read.
    pub cache: Text,
    /// `Server.ScriptTimeout`, in seconds.
    pub timeout: i32,
    /// The session, if there is one.
    pub session: Option<HeldSession>,
    /// Whether the session ends behind the page: `Session.Abandon`.
    pub is_abandoned: bool,
    /// How many replies of the Application object were heard.
    pub heard: usize,
}

fn usual_type(alloc: Global) -> Result<Text, Memory>
    ensures { Gives result (codes "text/html") }
{
    ascii(alloc, b"text/html")
}

fn usual_charset(alloc: Global) -> Result<Text, Memory>
    ensures { Gives result (codes "utf-8") }
{
    ascii(alloc, b"utf-8")
}

fn usual_status(alloc: Global) -> Result<Text, Memory>
    ensures { Gives result (codes "200 OK") }
{
    ascii(alloc, b"200 OK")
}

fn usual_cache(alloc: Global) -> Result<Text, Memory>
    ensures { Gives result (codes "private") }
{
    ascii(alloc, b"private")
}

impl PageObjects {
    /// The objects with which the page in the file at this path begins to answer a request, in this session.
    pub fn new(
        alloc: Global,
        request: Request,
        page: Text,
        session: Option<HeldSession>,
    ) -> Result<PageObjects, Memory>
        ensures { Gives result (spec.fresh_objects request page session) }
    {
        let content_type = usual_type(alloc)?;
        let charset = usual_charset(alloc)?;
        let status = usual_status(alloc)?;
        let cache = usual_cache(alloc)?;
        let request = Collections::of(alloc, request)?;
        Ok(PageObjects {
            is_page: true,
            request,
            page,
            draft: Draft::new(alloc),
            buffer: true,
            content_type,
            charset,
            status,
            cache,
            timeout: 90,
            session,
            is_abandoned: false,
            heard: 0,
        })
    }

    /// The same in an event that has no page: without Request and Response.
    pub fn outside_page(mut self) -> PageObjects
        ensures { result ≡ spec.outside_page self }
    {
        self.is_page = false;
        self
    }

    /// What memory is taken from.
    pub(crate) fn alloc(&self) -> Global {
        *self.page.allocator()
    }
}
