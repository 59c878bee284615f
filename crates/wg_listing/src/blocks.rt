use crate::operations::leaf_named;
use crate::registers::number;
use sqlite_items::Items;
use std::alloc::{AllocError, Global};
use std::mem;
use std::str::SplitWhitespace;
use wg_code::{Op, Ops};
use wg_words::{Word, Words};

/// The register that `show` uses.
const SHOWING: u32 = 31;

/// The open block, with those that were opened before it and are not taken.
#[derive(Drop)]
pub struct Blocks {
    alloc: Global,
    open: Ops,
    before: Vec<Ops>,
    shown: Word,
}

/// The words of a line up to a `/`.
fn words_until(alloc: Global, words: &mut SplitWhitespace<'_>) -> Result<Words, AllocError> {
    let mut list = Words::new(alloc);
    for word in words {
        let Ok(value) = word.parse::<u32>() else {
            return Ok(list);
        };
        list.push(value)?;
    }
    Ok(list)
}

impl Blocks {
    pub fn new(alloc: Global) -> Blocks {
        Blocks {
            alloc,
            open: Items::new(alloc),
            before: Vec::new(alloc),
            shown: 0,
        }
    }

    /// Opens a block.
    fn begin(&mut self) -> Result<(), AllocError> {
        let open = mem::replace(&mut self.open, Items::new(self.alloc));
        self.before.push(open)?;
        Ok(())
    }

    /// The open block; the one before it is open from now on.
    pub fn take(&mut self) -> Ops {
        let before = match self.before.pop() {
            Some(ops) => ops,
            None => Items::new(self.alloc),
        };
        mem::replace(&mut self.open, before)
    }

    fn push_if(&mut self, a: u32) -> Result<(), AllocError> {
        let no = self.take();
        let yes = self.take();
        self.open.push(Op::If { a, yes, no })
    }

    fn push_loop(&mut self, a: u32) -> Result<(), AllocError> {
        let step = self.take();
        let body = self.take();
        let test = self.take();
        self.open.push(Op::Loop {
            test,
            a,
            body,
            step,
        })
    }

    fn push_call(&mut self, words: &mut SplitWhitespace<'_>) -> Result<(), AllocError> {
        let function = number(words);
        let args = words_until(self.alloc, words)?;
        let results = words_until(self.alloc, words)?;
        self.open.push(Op::Call {
            function,
            args,
            results,
        })
    }

    /// Puts a register into the next word of the first buffer.
    fn push_show(&mut self, a: u32) -> Result<(), AllocError> {
        self.open.push(Op::Set {
            d: SHOWING,
            value: self.shown,
        })?;
        self.shown = self.shown.wrapping_add(1);
        self.open.push(Op::BufferPut {
            buffer: 0,
            word: SHOWING,
            a,
        })
    }

    /// Takes a command; one that is not known says nothing.
    pub fn add(&mut self, name: &str, words: &mut SplitWhitespace<'_>) -> Result<(), AllocError> {
        match name {
            "yes" | "no" | "test" | "body" | "step" => self.begin(),
            "if" => self.push_if(number(words)),
            "loop" => self.push_loop(number(words)),
            "call" => self.push_call(words),
            "show" => self.push_show(number(words)),
            _ => match leaf_named(name, words) {
                Some(op) => self.open.push(op),
                None => Ok(()),
            },
        }
    }
}
