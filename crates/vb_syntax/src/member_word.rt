//! The words in the paths of members (ASP 3.0 object reference).

/// A word in the path of a member.
#[derive(Clone, Copy, Debug, PartialEq, Eq)]
pub enum MemberWord {
    /// `Count`
    Count,
    /// `QueryString`
    QueryString,
    /// `Item`
    Item,
    /// `Key`
    Key,
    /// `Form`
    Form,
    /// `Cookies`
    Cookies,
    /// `HasKeys`
    HasKeys,
    /// `ServerVariables`
    ServerVariables,
    /// `TotalBytes`
    TotalBytes,
    /// `Write`
    Write,
    /// `Clear`
    Clear,
    /// `End`
    End,
    /// `Flush`
    Flush,
    /// `Redirect`
    Redirect,
    /// `Buffer`
    Buffer,
    /// `ContentType`
    ContentType,
    /// `Charset`
    Charset,
    /// `Status`
    Status,
    /// `AddHeader`
    AddHeader,
    /// `CacheControl`
    CacheControl,
    /// `Path`
    Path,
    /// `Domain`
    Domain,
    /// `Secure`
    Secure,
    /// `IsClientConnected`
    IsClientConnected,
    /// `HTMLEncode`
    HtmlEncode,
    /// `URLEncode`
    UrlEncode,
    /// `MapPath`
    MapPath,
    /// `CreateObject`
    CreateObject,
    /// `ScriptTimeout`
    ScriptTimeout,
    /// `Contents`
    Contents,
    /// `Remove`
    Remove,
    /// `RemoveAll`
    RemoveAll,
    /// `SessionID`
    SessionId,
    /// `Timeout`
    Timeout,
    /// `Abandon`
    Abandon,
    /// `Lock`
    Lock,
    /// `Unlock`
    Unlock,
}
