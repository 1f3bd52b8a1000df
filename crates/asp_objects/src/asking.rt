//! A page's objects as what is around its acts.
ghost use Rattle.std.specs.Prelude.{◌≡◌, ◌+◌};
ghost use Rattle.vb_value.specs.Outcome.{Runs};
ghost use Rattle.vb_syntax.specs.Asking.{stops};
ghost use Rattle.asp_objects.specs.ApplicationMembers as application;
ghost use Rattle.asp_objects.specs.Members as spec;
ghost use Rattle.asp_objects.specs.RequestMembers.{asked_of, total_bytes};
ghost use Rattle.asp_objects.specs.Said.{told};

use crate::application_members::{contents_asked, reply_answer};
use crate::given::{count, failed};
use crate::head::HeadPart;
use crate::objects::PageObjects;
use crate::request::ask_collection;
use crate::server::ServerText;
use asp_request::InSet;
use asp_response::CookiePart;
use vb_syntax::{AskStop, CollectionPart, ContentsPart, Given, Intrinsics, Member};
use vb_value::{AppCall, AppReply, Value, VbError};

/// Whether a member is one of Request or Response.
fn is_of_page(member: Member) -> bool
    ensures { result ≡ spec.is_of_page member }
{
    match member {
        Member::Request(_)
        | Member::RequestQueryString(_)
        | Member::RequestForm(_)
        | Member::RequestCookies(_)
        | Member::RequestServerVariables(_)
        | Member::RequestTotalBytes
        | Member::ResponseWrite
        | Member::ResponseClear
        | Member::ResponseFlush
        | Member::ResponseEnd
        | Member::ResponseRedirect
        | Member::ResponseBuffer
        | Member::ResponseIsClientConnected
        | Member::ResponseContentType
        | Member::ResponseCharset
        | Member::ResponseStatus
        | Member::ResponseCacheControl
        | Member::ResponseAddHeader
        | Member::ResponseCookies
        | Member::ResponseCookiePair
        | Member::ResponseCookiePath
        | Member::ResponseCookieDomain
        | Member::ResponseCookieSecure => true,
        _ => false,
    }
}

impl PageObjects {
    fn ask_request(
        &self,
        set: InSet,
        part: CollectionPart,
        arguments: &[Value],
    ) -> Result<Given, AskStop>
        ensures { Runs result stops self.now (told (asked_of self.now.request set part arguments.now) self.now) }
    {
        match ask_collection(self.alloc(), &self.request, set, part, arguments) {
            Ok(given) => Ok(given),
            Err(AskStop::Error(number)) => Err(AskStop::Error(number)),
            Err(AskStop::PageStop) => Err(AskStop::PageStop),
            Err(AskStop::Limit(kind)) => Err(AskStop::Limit(kind)),
            Err(AskStop::Memory) => Err(AskStop::Memory),
        }
    }

    fn ask_total(&self) -> Result<Given, AskStop>
        ensures { Runs result stops self.now (told (total_bytes self.now.request) self.now) }
    {
        match count(self.request.body_bytes()) {
            Ok(given) => Ok(given),
            Err(AskStop::Error(number)) => Err(AskStop::Error(number)),
            Err(AskStop::PageStop) => Err(AskStop::PageStop),
            Err(AskStop::Limit(kind)) => Err(AskStop::Limit(kind)),
            Err(AskStop::Memory) => Err(AskStop::Memory),
        }
    }

    fn ask_application(&self, part: ContentsPart, arguments: &[Value]) -> Result<Given, AskStop>
        ensures { Runs result stops self.now (told (application.contents_asked part arguments.now) self.now) }
    {
        match contents_asked(self.alloc(), part, arguments) {
            Ok(given) => Ok(given),
            Err(AskStop::Error(number)) => Err(AskStop::Error(number)),
            Err(AskStop::PageStop) => Err(AskStop::PageStop),
            Err(AskStop::Limit(kind)) => Err(AskStop::Limit(kind)),
            Err(AskStop::Memory) => Err(AskStop::Memory),
        }
    }

    /// What an object says that is there.
    #[tactic(auto, unfolding(crate::specs::Members::said))]
    fn say(&mut self, member: Member, arguments: &[Value]) -> Result<Given, AskStop>
        ensures { Runs result stops self.new (spec.said member arguments.now self.old) }
    {
        match member {
            Member::Request(part) => self.ask_request(InSet::All, part, arguments),
            Member::RequestQueryString(part) => self.ask_request(InSet::Query, part, arguments),
            Member::RequestForm(part) => self.ask_request(InSet::Form, part, arguments),
            Member::RequestCookies(part) => self.ask_request(InSet::Cookies, part, arguments),
            Member::RequestServerVariables(part) => self.ask_request(
                InSet::Server,
                part,
                arguments,
            ),
            Member::RequestTotalBytes => self.ask_total(),
            Member::ResponseWrite => self.ask_write(arguments),
            Member::ResponseClear => self.clear(),
            Member::ResponseFlush => self.flush(),
            Member::ResponseEnd => Err(AskStop::PageStop),
            Member::ResponseRedirect => self.ask_redirect(arguments),
            Member::ResponseBuffer => self.ask_buffer(arguments),
            Member::ResponseIsClientConnected => Ok(Given::Value(Value::Bool(true))),
            Member::ResponseContentType => self.ask_head(HeadPart::ContentType, arguments),
            Member::ResponseCharset => self.ask_head(HeadPart::Charset, arguments),
            Member::ResponseStatus => self.ask_head(HeadPart::Status, arguments),
            Member::ResponseCacheControl => self.ask_head(HeadPart::CacheControl, arguments),
            Member::ResponseAddHeader => self.ask_header(arguments),
            Member::ResponseCookies => self.ask_cookie(arguments),
            Member::ResponseCookiePair => self.ask_pair(arguments),
            Member::ResponseCookiePath => self.ask_part(CookiePart::Path, arguments),
            Member::ResponseCookieDomain => self.ask_part(CookiePart::Domain, arguments),
            Member::ResponseCookieSecure => self.ask_secure(arguments),
            Member::ServerHtmlEncode => self.ask_text(ServerText::Html, arguments),
            Member::ServerUrlEncode => self.ask_text(ServerText::Url, arguments),
            Member::ServerMapPath => self.ask_text(ServerText::Path, arguments),
            Member::ServerScriptTimeout => self.ask_timeout(arguments),
            Member::SessionContents(part) => self.ask_contents(part, arguments),
            Member::SessionId => self.ask_serial(),
            Member::SessionTimeout => self.ask_lasting(arguments),
            Member::SessionAbandon => self.abandon(),
            Member::ApplicationContents(part) => self.ask_application(part, arguments),
            Member::ApplicationLock => Ok(Given::Call(AppCall::Lock)),
            Member::ApplicationUnlock => Ok(Given::Call(AppCall::Unlock)),
            _ => Err(failed(VbError::OBJECT_REQUIRED)),
        }
    }
}

impl Intrinsics for PageObjects {
    ghost use Rattle.asp_objects.specs.Members.{asked as objects_asked, answered as objects_answered};

    ghost asked = { objects_asked };

    ghost answered = { objects_answered };

    #[tactic(auto, unfolding(crate::specs::Members::asked))]
    fn ask(&mut self, member: Member, arguments: &[Value]) -> Result<Given, AskStop> {
        if !self.is_page && is_of_page(member) {
            return Err(failed(VbError::OBJECT_REQUIRED));
        }
        self.say(member, arguments)
    }

    fn answer(
        &mut self,
        member: Member,
        arguments: &[Value],
        reply: AppReply,
    ) -> Result<Given, AskStop> {
        if self.heard == usize::MAX {
            return Err(AskStop::Memory);
        }
        self.heard += 1;
        match reply_answer(self.alloc(), member, arguments, reply) {
            Ok(given) => Ok(given),
            Err(AskStop::Error(number)) => Err(AskStop::Error(number)),
            Err(AskStop::PageStop) => Err(AskStop::PageStop),
            Err(AskStop::Limit(kind)) => Err(AskStop::Limit(kind)),
            Err(AskStop::Memory) => Err(AskStop::Memory),
        }
    }
}
