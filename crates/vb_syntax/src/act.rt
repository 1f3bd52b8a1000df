//! An act of a program: which part of it runs, how that ends, and what it asks of what is around it.
ghost use Rattle.std.specs.Prelude.{◌≡◌, List as Items, Result};
ghost use Rattle.vb_value.specs.Outcome.{Runs};
ghost use Rattle.vb_value.specs.declared.application.AppReply.{AppReply as Reply};
ghost use Rattle.vb_value.specs.declared.value.Value.{Value as AValue};
ghost use Rattle.vb_syntax.specs.declared.act.AskStop.{AskStop as Stopped};
ghost use Rattle.vb_syntax.specs.declared.act.Given.{Given as What};
ghost use Rattle.vb_syntax.specs.declared.member.Member.{Member as Asked};
ghost use Rattle.vb_syntax.specs.Asking.{stops};

use crate::member::Member;
use std::error::Error;
use std::fmt;
use vb_value::{AppCall, AppReply, LimitKind, List, Memory, Text, Value};

/// The part of a program that runs as one act. It has variables, objects and a number of ticks of its own.
#[derive(Clone, Copy, Debug, PartialEq, Eq)]
pub enum Act {
    /// The statements of the page.
    Body,
    /// A procedure of the page, by its number, without arguments.
    Proc(u32),
}

/// How an act ended.
#[derive(Debug, Drop)]
pub enum ActEnd {
    /// It came to its end.
    Done,
    /// A member of the page's objects stopped the page.
    Stopped,
    /// An error that nothing handled (VBScript 5.6 language reference, "Err Object").
    Error {
        /// Its number.
        number: i32,
        /// Where it comes from.
        source: Text,
        /// What it says.
        description: Text,
        /// The line of the statement in which it first arose, counted from 1.
        line: u32,
    },
    /// A limit of the host.
    Limit {
        /// Which one.
        kind: LimitKind,
        /// The line of the statement that would have passed it, counted from 1.
        line: u32,
    },
}

/// An act that has ended.
#[derive(Debug, Drop)]
pub struct ActDone {
    /// How.
    pub end: ActEnd,
    /// How many objects it made.
    pub made: u32,
    /// How many of them have ended. It is as many, unless a limit ended the act.
    pub finished: u32,
}

/// What a member of the page's objects gives.
#[derive(Debug, Drop)]
pub enum Given {
    /// A value. Where a statement asked, or a place was written, it is not used.
    Value(Value),
    /// The names that a For Each goes over.
    Names(List<Text>),
    /// Nothing yet: this call of the Application object is to be made, and its reply is taken by
    /// [`Intrinsics::answer`].
    Call(AppCall),
}

/// Why a member gives nothing.
#[derive(Clone, Copy, Debug, PartialEq, Eq)]
pub enum AskStop {
    /// An error of the language, by its number.
    Error(i32),
    /// The page is to stop here.
    PageStop,
    /// A limit of the host.
    Limit(LimitKind),
    /// Memory ran out.
    Memory,
}

impl fmt::Display for AskStop {
    fn fmt<W: fmt::Write>(&self, f: &mut fmt::Formatter<W>) -> fmt::Result {
        match self {
            AskStop::Error(number) => write!(f, "error {number}"),
            AskStop::PageStop => write!(f, "the page stops"),
            AskStop::Limit(kind) => write!(f, "limit {kind:?}"),
            AskStop::Memory => write!(f, "out of memory"),
        }
    }
}

impl Error for AskStop {}

impl From<Memory> for AskStop {
    ghost use Rattle.vb_syntax.specs.declared.act.AskStop.TheVariants.{Memory as OutOfMemory};

    ghost from_gives = { λ _ stop. stop ≡ OutOfMemory };

    fn from(_: Memory) -> AskStop {
        AskStop::Memory
    }
}

/// What is around an act: the objects that a page is given (ASP 3.0 object reference).
pub trait Intrinsics {
    /// What it gives for a member with these arguments and what it is then, or why it gives nothing and what it is then.
    ghost asked: { Asked → Items AValue → Self → Result (What × Self) (Stopped × Self) };

    /// The same for a member that wanted a call of the Application object, with the reply to that call.
    ghost answered: { Asked → Items AValue → Reply → Self → Result (What × Self) (Stopped × Self) };

    /// Reads or writes a member, or calls it. A writing has the written value as the last of its arguments.
    fn ask(&mut self, member: Member, arguments: &[Value]) -> Result<Given, AskStop>
        ensures { Runs result stops self.new (asked member arguments.now self.old) };

    /// Goes on with a member that wanted a call of the Application object, now that the call has its reply.
    fn answer(
        &mut self,
        member: Member,
        arguments: &[Value],
        reply: AppReply,
    ) -> Result<Given, AskStop>
        ensures { Runs result stops self.new (answered member arguments.now reply self.old) };
}
