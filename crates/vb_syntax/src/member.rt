//! The members of the objects that a page is given (ASP 3.0 object reference).

/// What a member takes. A call or a reading has from `fewest` to `most` arguments. A member that may be written has one
/// number of them, and a writing gives the value behind them: so a reading and a writing that are both right differ in
/// how much they give.
#[derive(Clone, Copy, Debug, PartialEq, Eq)]
pub struct Takes {
    /// The fewest arguments.
    pub fewest: u32,
    /// The most arguments.
    pub most: u32,
    /// It may be assigned to.
    pub is_written: bool,
}

/// A member of an object that a page is given.
#[derive(Clone, Copy, Debug, PartialEq, Eq)]
pub enum Member {
    /// `Request(..)`: the first of the four collections that has the name.
    Request(CollectionPart),
    /// `Request.QueryString`
    RequestQueryString(CollectionPart),
    /// `Request.Form`
    RequestForm(CollectionPart),
    /// `Request.Cookies`
    RequestCookies(CollectionPart),
    /// `Request.ServerVariables`
    RequestServerVariables(CollectionPart),
    /// `Request.TotalBytes`
    RequestTotalBytes,
    /// `Response.Write`
    ResponseWrite,
    /// `Response.Clear`
    ResponseClear,
    /// `Response.End`
    ResponseEnd,
    /// `Response.Flush`
    ResponseFlush,
    /// `Response.Redirect`
    ResponseRedirect,
    /// `Response.Buffer`
    ResponseBuffer,
    /// `Response.ContentType`
    ResponseContentType,
    /// `Response.Charset`
    ResponseCharset,
    /// `Response.Status`
    ResponseStatus,
    /// `Response.AddHeader`
    ResponseAddHeader,
    /// `Response.CacheControl`
    ResponseCacheControl,
    /// `Response.Cookies(name)`
    ResponseCookies,
    /// `Response.Cookies(name)(key)`: a pair in the cookie.
    ResponseCookiePair,
    /// `Response.Cookies(name).Path`
    ResponseCookiePath,
    /// `Response.Cookies(name).Domain`
    ResponseCookieDomain,
    /// `Response.Cookies(name).Secure`
    ResponseCookieSecure,
    /// `Response.IsClientConnected`
    ResponseIsClientConnected,
    /// `Server.HTMLEncode`
    ServerHtmlEncode,
    /// `Server.URLEncode`
    ServerUrlEncode,
    /// `Server.MapPath`
    ServerMapPath,
    /// `Server.CreateObject`
    ServerCreateObject,
    /// `Server.ScriptTimeout`
    ServerScriptTimeout,
    /// `Server.Execute`
    ServerExecute,
    /// `Server.Transfer`
    ServerTransfer,
    /// `Session(..)` and `Session.Contents`
    SessionContents(ContentsPart),
    /// `Session.SessionID`
    SessionId,
    /// `Session.Timeout`
    SessionTimeout,
    /// `Session.Abandon`
    SessionAbandon,
    /// `Application(..)` and `Application.Contents`
    ApplicationContents(ContentsPart),
    /// `Application.Lock`
    ApplicationLock,
    /// `Application.Unlock`
    ApplicationUnlock,
}

/// What is asked of a collection of the request.
#[derive(Clone, Copy, Debug, PartialEq, Eq)]
pub enum CollectionPart {
    /// The collection alone: its raw text.
    Raw,
    /// `(name)` or `.Item(name)`: the values of the name, joined.
    Item,
    /// `(name).Count`: how many values the name has.
    ValueCount,
    /// `(name)(index)`: one of the values, or by a text a pair of a cookie.
    Value,
    /// `(name).HasKeys`
    HasKeys,
    /// `.Count`: how many names there are.
    Count,
    /// `.Key(index)`: one of the names.
    Key,
    /// All the names, for a For Each.
    Names,
}

/// What is asked of the entries of a session or of the application.
#[derive(Clone, Copy, Debug, PartialEq, Eq)]
pub enum ContentsPart {
    /// `(name)`, or by a number the entry at that place.
    Item,
    /// `.Count`: how many entries there are.
    Count,
    /// `.Key(index)`: the name of an entry.
    Key,
    /// `.Remove(name)`
    Remove,
    /// `.RemoveAll`
    RemoveAll,
    /// All the names, for a For Each.
    Names,
}
