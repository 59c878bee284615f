ghost use Rattle.std.specs.Prelude.{◌≡◌, slice_get};
ghost use Rattle.wg_code.specs.Given.{scope_of};
ghost use Rattle.wg_code.specs.Named.{below, is_range, is_handle, takes, pair, wide_target};
ghost use Rattle.wg_code.specs.Valid.{is_below};

use crate::code::{Function, Handle};
use wg_words::Words;

/// What the operations of a body may name, whether it is a node's, and the depth below which it may call functions.
#[derive(Clone, Copy)]
pub struct Scope<'a> {
    pub registers: u32,
    pub shared: u32,
    pub buffers: u64,
    pub outputs: u64,
    pub handles: &'a [Handle],
    pub functions: &'a [Function],
    pub node: bool,
    pub depth: u32,
}

/// Whether a range lies within so many words.
pub fn is_range_of(n: u32, from: u32, to: u32) -> bool
    ensures { result ≡ is_range n from to }
{
    from <= to && to <= n
}

/// Whether there are all these registers, where there are so many.
pub fn all_below(registers: &Words, n: u32) -> bool
    ensures { result ≡ below n registers.now }
{
    registers.as_slice().iter().all(|register| *register < n)
}

/// Whether a handle is there, and its output.
pub fn has_handle(k: &Scope<'_>, handle: u32) -> bool
    ensures { result ≡ is_handle k.now.outputs (slice_get k.now.handles.now handle) }
{
    match k.handles.get(handle as usize) {
        Some(h) => u64::from(h.output) < k.outputs,
        None => false,
    }
}

/// Whether a function has so many parameters and results.
pub fn takes_so_many(k: &Scope<'_>, function: u32, args: usize, results: usize) -> bool
    ensures { result ≡ takes args results (slice_get k.now.functions.now function) }
{
    match k.functions.get(function as usize) {
        Some(f) => args == f.params as usize && results == f.results as usize,
        None => false,
    }
}

/// Whether a function may be called.
pub fn is_deeper(k: &Scope<'_>, function: u32) -> bool
    ensures { result ≡ is_below k.now.depth (slice_get k.now.functions.now function) }
{
    match k.functions.get(function as usize) {
        Some(f) => f.depth < k.depth,
        None => false,
    }
}

/// Whether a number of 64 bits may stand in a register and the next.
pub fn is_pair(n: u32, r: u32) -> bool
    ensures { result ≡ below n (pair r) }
{
    r < n && r < n - 1
}

/// Whether the result of an operator on numbers of 64 bits may stand in a register, or in it and the next.
pub fn is_wide_target(n: u32, op: u32, d: u32) -> bool
    ensures { result ≡ below n (wide_target op d) }
{
    if op >= 13 { d < n } else { is_pair(n, d) }
}
