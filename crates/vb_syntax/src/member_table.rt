//! The table of members: which path means a member, what it takes, and whether it may be written (ASP 3.0 object
//! reference). Of the rows that fit a path the first counts.

use crate::member::{CollectionPart, ContentsPart, Member, Takes};
use crate::member_word::MemberWord;
use crate::note::PageObject;

/// A step of a path that means a member.
#[derive(Clone, Copy, Debug)]
pub enum MemberStep {
    /// `.word`
    Name(MemberWord),
    /// `(arguments)`
    Arguments,
    /// The path has no more steps.
    End,
}

/// Where the path of a member may stand.
#[derive(Clone, Copy, Debug)]
pub enum Stands {
    /// Whatever stands behind it.
    Anywhere,
    /// With nothing behind it.
    Alone,
    /// With nothing behind it, where a For Each goes over it.
    Group,
}

/// A path that means a member.
#[derive(Clone, Copy, Debug)]
pub struct MemberRow {
    /// The object that it begins with.
    pub object: PageObject,
    /// What stands behind the object first.
    pub first: MemberStep,
    /// What stands second.
    pub second: MemberStep,
    /// What stands third.
    pub third: MemberStep,
    /// What stands last.
    pub fourth: MemberStep,
    /// Where it may stand.
    pub stands: Stands,
    /// The member.
    pub member: Member,
    /// What the member takes.
    pub takes: Takes,
}

macro_rules! step {
    (()) => {
        MemberStep::Arguments
    };
    (-) => {
        MemberStep::End
    };
    ($word:ident) => {
        MemberStep::Name(MemberWord::$word)
    };
}

/// An object with its steps, where they may stand, the member, how many arguments it takes, and whether it is written.
macro_rules! row {
    ($object:ident [$first:tt] $($rest:tt)*) => {
        row!($object, $first, -, -, -, $($rest)*)
    };
    ($object:ident [$first:tt $second:tt] $($rest:tt)*) => {
        row!($object, $first, $second, -, -, $($rest)*)
    };
    ($object:ident [$first:tt $second:tt $third:tt] $($rest:tt)*) => {
        row!($object, $first, $second, $third, -, $($rest)*)
    };
    ($object:ident [$first:tt $second:tt $third:tt $fourth:tt] $($rest:tt)*) => {
        row!($object, $first, $second, $third, $fourth, $($rest)*)
    };
    ($object:ident, $first:tt, $second:tt, $third:tt, $fourth:tt, $stands:ident, $member:expr, $fewest:literal,
        $most:literal, $is_written:literal) => {
        MemberRow {
            object: PageObject::$object,
            first: step!($first),
            second: step!($second),
            third: step!($third),
            fourth: step!($fourth),
            stands: Stands::$stands,
            member: $member,
            takes: Takes {
                fewest: $fewest,
                most: $most,
                is_written: $is_written,
            },
        }
    };
}

/// The paths of members.
pub static MEMBERS: [MemberRow; 91] = [
    row!(Request [() ()] Anywhere, Member::Request(CollectionPart::Value), 2, 2, false),
    row!(Request [() Count] Anywhere, Member::Request(CollectionPart::ValueCount), 1, 1, false),
    row!(Request [()] Anywhere, Member::Request(CollectionPart::Item), 1, 1, false),
    row!(Request [QueryString] Group, Member::RequestQueryString(CollectionPart::Names), 0, 0, false),
    row!(Request [QueryString] Alone, Member::RequestQueryString(CollectionPart::Raw), 0, 0, false),
    row!(Request [QueryString () ()] Anywhere, Member::RequestQueryString(CollectionPart::Value), 2, 2, false),
    row!(Request [QueryString () Count] Anywhere, Member::RequestQueryString(CollectionPart::ValueCount), 1, 1, false),
    row!(Request [QueryString ()] Anywhere, Member::RequestQueryString(CollectionPart::Item), 1, 1, false),
    row!(Request [QueryString Item () ()] Anywhere, Member::RequestQueryString(CollectionPart::Value), 2, 2, false),
    row!(Request [QueryString Item () Count] Anywhere, Member::RequestQueryString(CollectionPart::ValueCount), 1, 1, false),
    row!(Request [QueryString Item ()] Anywhere, Member::RequestQueryString(CollectionPart::Item), 1, 1, false),
    row!(Request [QueryString Item] Anywhere, Member::RequestQueryString(CollectionPart::Item), 1, 1, false),
    row!(Request [QueryString Count] Anywhere, Member::RequestQueryString(CollectionPart::Count), 0, 0, false),
    row!(Request [QueryString Key] Anywhere, Member::RequestQueryString(CollectionPart::Key), 1, 1, false),
    row!(Request [Form] Group, Member::RequestForm(CollectionPart::Names), 0, 0, false),
    row!(Request [Form] Alone, Member::RequestForm(CollectionPart::Raw), 0, 0, false),
    row!(Request [Form () ()] Anywhere, Member::RequestForm(CollectionPart::Value), 2, 2, false),
    row!(Request [Form () Count] Anywhere, Member::RequestForm(CollectionPart::ValueCount), 1, 1, false),
    row!(Request [Form ()] Anywhere, Member::RequestForm(CollectionPart::Item), 1, 1, false),
    row!(Request [Form Item () ()] Anywhere, Member::RequestForm(CollectionPart::Value), 2, 2, false),
    row!(Request [Form Item () Count] Anywhere, Member::RequestForm(CollectionPart::ValueCount), 1, 1, false),
    row!(Request [Form Item ()] Anywhere, Member::RequestForm(CollectionPart::Item), 1, 1, false),
    row!(Request [Form Item] Anywhere, Member::RequestForm(CollectionPart::Item), 1, 1, false),
    row!(Request [Form Count] Anywhere, Member::RequestForm(CollectionPart::Count), 0, 0, false),
    row!(Request [Form Key] Anywhere, Member::RequestForm(CollectionPart::Key), 1, 1, false),
    row!(Request [Cookies] Group, Member::RequestCookies(CollectionPart::Names), 0, 0, false),
    row!(Request [Cookies] Alone, Member::RequestCookies(CollectionPart::Raw), 0, 0, false),
    row!(Request [Cookies () ()] Anywhere, Member::RequestCookies(CollectionPart::Value), 2, 2, false),
    row!(Request [Cookies () Count] Anywhere, Member::RequestCookies(CollectionPart::ValueCount), 1, 1, false),
    row!(Request [Cookies () HasKeys] Anywhere, Member::RequestCookies(CollectionPart::HasKeys), 1, 1, false),
    row!(Request [Cookies ()] Anywhere, Member::RequestCookies(CollectionPart::Item), 1, 1, false),
    row!(Request [Cookies Item () ()] Anywhere, Member::RequestCookies(CollectionPart::Value), 2, 2, false),
    row!(Request [Cookies Item () Count] Anywhere, Member::RequestCookies(CollectionPart::ValueCount), 1, 1, false),
    row!(Request [Cookies Item () HasKeys] Anywhere, Member::RequestCookies(CollectionPart::HasKeys), 1, 1, false),
    row!(Request [Cookies Item ()] Anywhere, Member::RequestCookies(CollectionPart::Item), 1, 1, false),
    row!(Request [Cookies Item] Anywhere, Member::RequestCookies(CollectionPart::Item), 1, 1, false),
    row!(Request [Cookies Count] Anywhere, Member::RequestCookies(CollectionPart::Count), 0, 0, false),
    row!(Request [Cookies Key] Anywhere, Member::RequestCookies(CollectionPart::Key), 1, 1, false),
    row!(Request [ServerVariables] Group, Member::RequestServerVariables(CollectionPart::Names), 0, 0, false),
    row!(Request [ServerVariables] Alone, Member::RequestServerVariables(CollectionPart::Raw), 0, 0, false),
    row!(Request [ServerVariables () ()] Anywhere, Member::RequestServerVariables(CollectionPart::Value), 2, 2, false),
    row!(Request [ServerVariables () Count] Anywhere, Member::RequestServerVariables(CollectionPart::ValueCount), 1, 1, false),
    row!(Request [ServerVariables ()] Anywhere, Member::RequestServerVariables(CollectionPart::Item), 1, 1, false),
    row!(Request [ServerVariables Item () ()] Anywhere, Member::RequestServerVariables(CollectionPart::Value), 2, 2, false),
    row!(Request [ServerVariables Item () Count] Anywhere, Member::RequestServerVariables(CollectionPart::ValueCount), 1, 1, false),
    row!(Request [ServerVariables Item ()] Anywhere, Member::RequestServerVariables(CollectionPart::Item), 1, 1, false),
    row!(Request [ServerVariables Item] Anywhere, Member::RequestServerVariables(CollectionPart::Item), 1, 1, false),
    row!(Request [ServerVariables Count] Anywhere, Member::RequestServerVariables(CollectionPart::Count), 0, 0, false),
    row!(Request [ServerVariables Key] Anywhere, Member::RequestServerVariables(CollectionPart::Key), 1, 1, false),
    row!(Request [TotalBytes] Anywhere, Member::RequestTotalBytes, 0, 0, false),
    row!(Response [Write] Anywhere, Member::ResponseWrite, 1, 1, false),
    row!(Response [Clear] Anywhere, Member::ResponseClear, 0, 0, false),
    row!(Response [End] Anywhere, Member::ResponseEnd, 0, 0, false),
    row!(Response [Flush] Anywhere, Member::ResponseFlush, 0, 0, false),
    row!(Response [Redirect] Anywhere, Member::ResponseRedirect, 1, 1, false),
    row!(Response [Buffer] Anywhere, Member::ResponseBuffer, 0, 0, true),
    row!(Response [ContentType] Anywhere, Member::ResponseContentType, 0, 0, true),
    row!(Response [Charset] Anywhere, Member::ResponseCharset, 0, 0, true),
    row!(Response [Status] Anywhere, Member::ResponseStatus, 0, 0, true),
    row!(Response [AddHeader] Anywhere, Member::ResponseAddHeader, 2, 2, false),
    row!(Response [CacheControl] Anywhere, Member::ResponseCacheControl, 0, 0, true),
    row!(Response [Cookies () ()] Anywhere, Member::ResponseCookiePair, 2, 2, true),
    row!(Response [Cookies () Path] Anywhere, Member::ResponseCookiePath, 1, 1, true),
    row!(Response [Cookies () Domain] Anywhere, Member::ResponseCookieDomain, 1, 1, true),
    row!(Response [Cookies () Secure] Anywhere, Member::ResponseCookieSecure, 1, 1, true),
    row!(Response [Cookies ()] Alone, Member::ResponseCookies, 1, 1, true),
    row!(Response [IsClientConnected] Anywhere, Member::ResponseIsClientConnected, 0, 0, false),
    row!(Server [HtmlEncode] Anywhere, Member::ServerHtmlEncode, 1, 1, false),
    row!(Server [UrlEncode] Anywhere, Member::ServerUrlEncode, 1, 1, false),
    row!(Server [MapPath] Anywhere, Member::ServerMapPath, 1, 1, false),
    row!(Server [CreateObject] Anywhere, Member::ServerCreateObject, 1, 1, false),
    row!(Server [ScriptTimeout] Anywhere, Member::ServerScriptTimeout, 0, 0, true),
    row!(Session [()] Anywhere, Member::SessionContents(ContentsPart::Item), 1, 1, true),
    row!(Session [Contents ()] Anywhere, Member::SessionContents(ContentsPart::Item), 1, 1, true),
    row!(Session [Contents Count] Anywhere, Member::SessionContents(ContentsPart::Count), 0, 0, false),
    row!(Session [Contents Key] Anywhere, Member::SessionContents(ContentsPart::Key), 1, 1, false),
    row!(Session [Contents Remove] Anywhere, Member::SessionContents(ContentsPart::Remove), 1, 1, false),
    row!(Session [Contents RemoveAll] Anywhere, Member::SessionContents(ContentsPart::RemoveAll), 0, 0, false),
    row!(Session [Contents] Group, Member::SessionContents(ContentsPart::Names), 0, 0, false),
    row!(Session [SessionId] Anywhere, Member::SessionId, 0, 0, false),
    row!(Session [Timeout] Anywhere, Member::SessionTimeout, 0, 0, true),
    row!(Session [Abandon] Anywhere, Member::SessionAbandon, 0, 0, false),
    row!(Application [()] Anywhere, Member::ApplicationContents(ContentsPart::Item), 1, 1, true),
    row!(Application [Contents ()] Anywhere, Member::ApplicationContents(ContentsPart::Item), 1, 1, true),
    row!(Application [Contents Count] Anywhere, Member::ApplicationContents(ContentsPart::Count), 0, 0, false),
    row!(Application [Contents Key] Anywhere, Member::ApplicationContents(ContentsPart::Key), 1, 1, false),
    row!(Application [Contents Remove] Anywhere, Member::ApplicationContents(ContentsPart::Remove), 1, 1, false),
    row!(Application [Contents RemoveAll] Anywhere, Member::ApplicationContents(ContentsPart::RemoveAll), 0, 0, false),
    row!(Application [Contents] Group, Member::ApplicationContents(ContentsPart::Names), 0, 0, false),
    row!(Application [Lock] Anywhere, Member::ApplicationLock, 0, 0, false),
    row!(Application [Unlock] Anywhere, Member::ApplicationUnlock, 0, 0, false),
];
