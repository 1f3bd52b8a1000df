//! What a page asks of the Application object, and what it answers.

use crate::list::List;
use crate::text::Text;
use crate::value::Value;

/// A call of the Application object (ASP 3.0, "Application Object"). Names are folded.
#[derive(Debug, Drop)]
pub enum AppCall {
    /// The value of this name.
    Get(Text),
    /// From now on this name has this value.
    Put(Text, Value),
    /// This name is taken away.
    Remove(Text),
    /// All names are taken away.
    RemoveAll,
    /// How many names there are.
    Count,
    /// The name at this place, counted from 1.
    KeyAt(i32),
    /// All names, in the order of their first writing.
    Names,
    /// Other runs may not write from now on.
    Lock,
    /// Other runs may write again.
    Unlock,
}

/// What the Application object replies.
#[derive(Debug, Drop)]
pub enum AppReply {
    /// To [`AppCall::Get`]; Empty where the name is absent.
    Value(Value),
    /// To [`AppCall::Count`].
    Number(i32),
    /// To [`AppCall::KeyAt`], at a place that has a name.
    Name(Text),
    /// To [`AppCall::KeyAt`], at any other place.
    NoName,
    /// To [`AppCall::Names`].
    Names(List<Text>),
    /// The call was done.
    Done,
    /// To [`AppCall::Put`], where the application would weigh too much. Nothing was changed.
    Full,
}
