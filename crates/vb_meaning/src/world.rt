//! The world as an evaluator holds it, and how statements go on.

use crate::cause::Raised;
use vb_heap::{CellNo, Heap, Place};
use vb_syntax::ExitKind;
use vb_value::{List, ObjNo, Value};

/// How a statement that ends without an error goes on.
#[derive(Clone, Copy, Debug, PartialEq, Eq)]
pub enum Exit {
    /// With the next statement.
    Next,
    /// Behind the construct that an `Exit` names.
    Leave(ExitKind),
}

/// The names and rules of the procedure, or of the page, whose statements run.
#[derive(Drop)]
pub struct Frame {
    /// Where each variable is, by its number, the parameters first. Of the page these are its own variables.
    pub places: List<Place>,
    /// The cells that the procedure has made, in the order of declaration.
    pub own: List<CellNo>,
    /// The cell of the value that it is to give.
    pub result: Option<CellNo>,
    /// The values of its constants, by their numbers.
    pub constants: List<Value>,
    /// The object whose method it is, and the number of that object's class.
    pub owner: Option<(ObjNo, u32)>,
    /// `On Error Resume Next` holds.
    pub resumes: bool,
    /// The subjects of the Withs around the statement, the innermost last.
    pub subjects: List<Value>,
}

/// All that statements change, but for the ticks, the environment and the replies.
#[derive(Drop)]
pub struct World {
    /// Cells and objects.
    pub heap: Heap,
    /// The cells of the page's variables, by their numbers.
    pub page: List<CellNo>,
    /// The procedure that runs.
    pub frame: Frame,
    /// What Err holds.
    pub err: Raised,
    /// How many procedures are entered and not left.
    pub calls: u32,
    /// A terminator runs.
    pub terminates: bool,
    /// The page has ended, and its last objects end.
    pub page_ended: bool,
    /// How many objects have ended.
    pub finished: u32,
}
