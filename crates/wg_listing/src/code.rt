ghost use Rattle.std.specs.Prelude.{◌≡◌};

use crate::blocks::Blocks;
use crate::registers::number;
use sqlite_items::Items;
use std::alloc::{AllocError, Global};
use std::mem;
use std::str::SplitWhitespace;
use wg_code::{Function, Functions, Handle, Handles, NodeCode, NodeCodes, Part, Parts, RawCode};
use wg_machine::Shape;

/// Node code as far as it was read: the blocks, the parts and handles of the node, and the functions and nodes before it.
#[derive(Drop)]
pub struct Listing {
    alloc: Global,
    blocks: Blocks,
    parts: Parts,
    before: Vec<Parts>,
    handles: Handles,
    functions: Functions,
    nodes: NodeCodes,
    shared: u32,
}

impl Listing {
    /// No code.
    pub fn new(alloc: Global) -> Listing {
        Listing {
            alloc,
            blocks: Blocks::new(alloc),
            parts: Items::new(alloc),
            before: Vec::new(alloc),
            handles: Items::new(alloc),
            functions: Items::new(alloc),
            nodes: Items::new(alloc),
            shared: 0,
        }
    }

    /// Opens a list of parts.
    fn begin_parts(&mut self) -> Result<(), AllocError> {
        let parts = mem::replace(&mut self.parts, Items::new(self.alloc));
        self.before.push(parts)?;
        Ok(())
    }

    /// The open list of parts; the one before it is open from now on.
    fn take_parts(&mut self) -> Parts {
        let before = match self.before.pop() {
            Some(parts) => parts,
            None => Items::new(self.alloc),
        };
        mem::replace(&mut self.parts, before)
    }

    fn push_choose(&mut self, a: u32) -> Result<(), AllocError> {
        let no = self.take_parts();
        let yes = self.take_parts();
        self.parts.push(Part::Choose { a, yes, no })
    }

    fn push_handle(&mut self, words: &mut SplitWhitespace<'_>) -> Result<(), AllocError> {
        self.handles.push(Handle {
            output: number(words),
            group: number(words) != 0,
        })
    }

    /// A function of the open block, with its parameters, results, registers and depth.
    fn push_function(&mut self, words: &mut SplitWhitespace<'_>) -> Result<(), AllocError> {
        let body = self.blocks.take();
        self.functions.push(Function {
            params: number(words),
            results: number(words),
            registers: number(words),
            depth: number(words),
            body,
        })
    }

    /// A node of the parts and handles, with its threads by x, y and z and its registers.
    fn push_node(&mut self, words: &mut SplitWhitespace<'_>) -> Result<(), AllocError> {
        let parts = self.take_parts();
        let handles = mem::replace(&mut self.handles, Items::new(self.alloc));
        self.nodes.push(NodeCode {
            threads: [number(words), number(words), number(words)],
            registers: number(words),
            handles,
            parts,
        })
    }

    /// Takes a command.
    pub fn add(&mut self, name: &str, words: &mut SplitWhitespace<'_>) -> Result<(), AllocError> {
        match name {
            "lanes" => {
                let body = self.blocks.take();
                self.parts.push(Part::Lanes { body })
            }
            "first" => {
                let body = self.blocks.take();
                self.parts.push(Part::First { body })
            }
            "parts" => self.begin_parts(),
            "choose" => self.push_choose(number(words)),
            "handle" => self.push_handle(words),
            "function" => self.push_function(words),
            "node" => self.push_node(words),
            "shared" => {
                self.shared = number(words);
                Ok(())
            }
            _ => self.blocks.add(name, words),
        }
    }

    /// The code of a shape.
    pub fn into_code(self, shape: Shape) -> RawCode
        ensures { result.shape ≡ shape }
    {
        let Listing {
            alloc: _,
            blocks: _,
            parts: _,
            before: _,
            handles: _,
            functions,
            nodes,
            shared,
        } = self;
        RawCode {
            shape,
            shared,
            functions,
            nodes,
        }
    }
}
