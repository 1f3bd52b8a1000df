//! Frames with their places, the lowest first.
ghost use Rattle.std.specs.Prelude.{◌≡◌, ◌∷◌, ◌++◌, [], IfOk, MatchOption, length};
ghost use Rattle.std.specs.Borrow.{sem};
ghost use Rattle.std.specs.Option.{option_copied_mut};
ghost use Rattle.vb_value.specs.Outcome.{Changes};
ghost use Rattle.vb_frames.specs.Places.{Root, seen};

use crate::frame::Frame;
use crate::got::Got;
use crate::node::{Node, part_of};
use crate::place::Place;
use std::alloc::Global;
use std::marker::Model;
use vb_syntax::program::Program;
use vb_value::{List, Memory};

/// A frame with what it keeps, and the place of its node below the node of the frame under it.
#[derive(Drop)]
pub struct Placed {
    /// The frame.
    pub frame: Frame,
    /// Its place.
    pub place: Place,
    /// What it keeps.
    pub kept: Got,
}

/// Frames with their places, the lowest first, whose node is a part of the program. A contract sees it as their list.
#[derive(Drop)]
pub struct Stack {
    frames: Vec<Placed>,
}

impl Model for Stack {
    ghost use Rattle.std.specs.Prelude.{List as Items};
    ghost use Rattle.std.specs.Coded.{coded_list, codes};
    ghost use Rattle.vb_frames.specs.contracts.stack.Placed as placing;
    ghost use Rattle.vb_frames.specs.declared.stack.Placed.{Placed as Placing};

    ghost Value = { Items Placing };

    ghost coded = { Prim.hlevel (codes, placing.the_row.coded) };

    ghost view = { λ stack. stack.frames.items };
}

impl Stack {
    ghost use Rattle.vb_frames.specs.Lends.{LendsTop};
    ghost use Rattle.vb_frames.specs.Stacks.{Stands, Tied, highest};
    ghost use Rattle.vb_frames.specs.Stacks as nodes;

    /// No frame.
    pub fn new(alloc: Global) -> Stack
        ensures { result ≡ [] }
    {
        Stack {
            frames: Vec::new(alloc),
        }
    }

    /// A frame more.
    pub fn push(&mut self, placed: Placed) -> Result<(), Memory>
        ensures { Changes result self.old self.new (self.old ++ placed ∷ []) }
    {
        Ok(self.frames.push(placed)?)
    }

    /// The highest frame goes.
    pub fn pop(&mut self) -> Option<Placed>
        ensures { MatchOption result ((self.old ≡ []) × (self.new ≡ [])) (λ last. self.old ≡ self.new ++ last ∷ []) }
    {
        self.frames.pop()
    }

    /// The highest frame, for writing.
    pub fn top(&mut self) -> Option<&mut Placed>
        ensures* writes_back { sem 𝓛 (LendsTop self.entry result) }
        ensures value { option_copied_mut result ≡ highest self.old }
    {
        self.frames.last_mut()
    }

    /// A frame more at a node, whose reference is kept beside it; what comes next stands at a part of the node.
    #[tactic(auto, using(crate::proofs::Walks::top_push, crate::proofs::Walks::tied_push))]
    pub fn enter<'a>(
        &mut self,
        p: &'a Program,
        nodes: &mut List<Node<'a>>,
        here: &mut Node<'a>,
        placed: Placed,
        below: Place,
    ) -> Result<(), Memory>
        requires tied { Tied p.now nodes.old self.old }
        requires here { Stands p.now here.old placed.place self.old }
        ensures stack { IfOk result (λ _. self.new ≡ self.old ++ placed ∷ []) }
        ensures tied { IfOk result (λ _. Tied p.now nodes.new self.new) }
        ensures here { IfOk result (λ _. Stands p.now here.new below self.new) }
    {
        self.push(placed)?;
        nodes.push(*here)?;
        *here = part_of(p, below, *here);
        Ok(())
    }

    /// The highest frame goes, and its node is the one to go on at. Where there is none, that is want of memory.
    #[tactic(auto, using(crate::proofs::Walks::tied_pop, crate::proofs::Walks::tied_popped))]
    pub fn leave<'a>(
        &mut self,
        p: &'a Program,
        nodes: &mut List<Node<'a>>,
        here: &mut Node<'a>,
    ) -> Result<Placed, Memory>
        requires { Tied p.now nodes.old self.old }
        ensures stack { IfOk result (λ found. self.old ≡ self.new ++ found ∷ []) }
        ensures tied { IfOk result (λ _. Tied p.now nodes.new self.new) }
        ensures here { IfOk result (λ found. Stands p.now here.new found.place self.new) }
    {
        let Some(found) = self.pop() else {
            return Err(Memory);
        };
        let Some(node) = nodes.pop() else {
            return Err(Memory);
        };
        *here = node;
        Ok(found)
    }

    /// How many frames there are.
    pub fn depth(&self) -> usize
        ensures { result ≡ length self.now }
    {
        self.frames.len()
    }

    /// The nodes that the frames' places name, from the lowest on, and the highest frame's node.
    #[tactic(auto, using(crate::proofs::Walks::walk_more, crate::proofs::Walks::walked))]
    pub fn walk<'a>(
        &self,
        alloc: Global,
        p: &'a Program,
        node: &mut Node<'a>,
    ) -> Result<List<Node<'a>>, Memory>
        requires { seen node.old ≡ Root }
        ensures tied { IfOk result (λ nodes. Tied p.now nodes self.now) }
        ensures top { IfOk result (λ _. seen node.new ≡ nodes.top p.now Root self.now) }
    {
        let mut nodes = List::with_capacity(alloc, self.frames.len())?;
        let mut frames = self.frames.as_slice();
        while let [placed, above @ ..] = frames {
            *node = part_of(p, placed.place, *node);
            nodes.push(*node)?;
            frames = above;
        }
        Ok(nodes)
    }
}
