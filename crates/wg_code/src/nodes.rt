ghost use Rattle.std.specs.Prelude.{◌≡◌, ◌&&◌, nat_le, if◌then◌else◌, Bool, Some, None, nat_lt};
ghost use Rattle.wg_code.specs.Given.{scope_of};
ghost use Rattle.wg_code.specs.Valid.{outputs_of as least_outputs, has_threads, threads_fit, part_step, parts_valid, is_thread, is_valid_node, are_valid_nodes, is_valid_function, valid};
ghost use Rattle.std.specs.List.{list_all};
ghost use Rattle.wg_code.specs.declared.code.Handle.{Handle as Handled};
ghost use Rattle.wg_code.specs.declared.code.Part.{fold-Part};
ghost use Rattle.wg_state.specs.Lanes.{lanes_in};

use crate::code::{Function, Handle, NodeCode, Part, RawCode};
use crate::counts::part_list_requests;
use crate::scope::Scope;
use crate::valid::ops_fit;
use wg_machine::{Kind, Unit};
use wg_words::Word;
use wg_words::limits::{MOST_CODE_WEIGHT, MOST_LANES, MOST_SHARED_WORDS};

/// The lanes of a group of so many threads, where they are from 1 to the most.
fn lane_count(threads: [Word; 3]) -> Option<u32>
    ensures { result ≡ (if nat_le 1 (lanes_in threads) && nat_le (lanes_in threads) MOST_LANES then Some (lanes_in threads) else None) }
{
    let [x, y, z] = threads;
    match x.checked_mul(y) {
        Some(layer) => match layer.checked_mul(z) {
            Some(count) => if 1 <= count && count <= MOST_LANES {
                Some(count)
            } else {
                None
            },
            None => None,
        },
        None => None,
    }
}

fn is_thread_kind(kind: &Kind) -> bool
    ensures { result ≡ is_thread kind.now }
{
    match kind {
        Kind::Thread => true,
        Kind::Coalescing { .. } | Kind::Grid { .. } | Kind::GridField { .. } => false,
    }
}

fn has_thread_unit(units: &[Unit], node: usize) -> bool
    ensures { result ≡ has_threads units.now node }
{
    for unit in units {
        if unit.node as usize == node && is_thread_kind(&unit.kind) {
            return true;
        }
    }
    false
}

fn lanes_fit(units: &[Unit], node: usize, threads: [Word; 3]) -> bool
    ensures { result ≡ threads_fit units.now node (lanes_in threads) }
{
    match lane_count(threads) {
        Some(count) => !has_thread_unit(units, node) || count == 1,
        None => false,
    }
}

/// How many outputs every unit of a node has; all that a number can name where it has no unit.
fn outputs_of(units: &[Unit], node: usize) -> u64
    ensures { result ≡ least_outputs units.now node }
{
    let mut least = 1 << 32;
    for unit in units {
        if unit.node as usize == node {
            least = least.min(unit.outputs.len() as u64);
        }
    }
    least
}

#[cycle(parts)]
fn parts_fit(k: &Scope<'_>, parts: &[Part]) -> bool
    ensures { result ≡ parts_valid (scope_of k.now) parts.now }
{
    for part in parts {
        if !part_fits(k, part) {
            return false;
        }
    }
    true
}

#[cycle(parts)]
fn part_fits(k: &Scope<'_>, part: &Part) -> bool
    ensures { result ≡ fold-Part Bool (part_step (scope_of k.now)) part.now }
{
    match part {
        Part::Lanes { body } => ops_fit(k, false, body.as_slice()),
        Part::First { body } => ops_fit(k, false, body.as_slice()),
        Part::Choose {
            a,
            yes: first,
            no: second,
        } => {
            *a < k.registers && (parts_fit(k, first.as_slice()) && parts_fit(k, second.as_slice()))
        }
    }
}

fn handles_fit(handles: &[Handle], outputs: u64) -> bool
    ensures { result ≡ list_all (λ (h : Handled). nat_lt h.output outputs) handles.now }
{
    handles
        .iter()
        .all(|handle| u64::from(handle.output) < outputs)
}

fn node_fits(code: &RawCode, at: usize, node: &NodeCode) -> bool
    ensures { result ≡ is_valid_node code.now at node.now }
{
    let units = code.shape.units.as_slice();
    let outputs = outputs_of(units, at);
    let k = Scope {
        registers: node.registers,
        shared: code.shared,
        buffers: code.shape.buffers.len() as u64,
        outputs,
        handles: node.handles.as_slice(),
        functions: code.functions.as_slice(),
        node: true,
        depth: 33,
    };
    (lanes_fit(units, at, node.threads) && handles_fit(node.handles.as_slice(), outputs))
        && (parts_fit(&k, node.parts.as_slice())
            && part_list_requests(node.parts.as_slice()) <= MOST_CODE_WEIGHT)
}

fn nodes_fit(code: &RawCode) -> bool
    ensures { result ≡ are_valid_nodes code.now 0 code.now.nodes }
{
    for (at, node) in code.nodes.as_slice().iter().enumerate() {
        if !node_fits(code, at, node) {
            return false;
        }
    }
    true
}

fn function_fits(code: &RawCode, function: &Function) -> bool
    ensures { result ≡ is_valid_function code.now function.now }
{
    let k = Scope {
        registers: function.registers,
        shared: code.shared,
        buffers: code.shape.buffers.len() as u64,
        outputs: 0,
        handles: &[],
        functions: code.functions.as_slice(),
        node: false,
        depth: function.depth,
    };
    (function.params <= function.registers && function.results <= function.registers)
        && (function.depth <= 32 && ops_fit(&k, false, function.body.as_slice()))
}

fn functions_fit(code: &RawCode) -> bool
    ensures { result ≡ list_all (is_valid_function code.now) code.now.functions }
{
    for function in code.functions.as_slice() {
        if !function_fits(code, function) {
            return false;
        }
    }
    true
}

/// Whether code is valid.
pub fn is_valid(code: &RawCode) -> bool
    ensures { result ≡ valid code.now }
{
    (code.shared <= MOST_SHARED_WORDS && code.nodes.len() == code.shape.nodes.len())
        && (functions_fit(code) && nodes_fit(code))
}
