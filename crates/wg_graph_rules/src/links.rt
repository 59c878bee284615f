//! Which nodes target which, as rows of flags.
ghost use Rattle.std.specs.Prelude.{◌≡◌, ◌<◌, ◌||◌, ℕ, List, length, slice_set, true, IfOk};
ghost use Rattle.std.specs.List.{list_any};
ghost use Rattle.wg_chains.specs.Rows.{flag, AreLinks};
ghost use Rattle.wg_directories.specs.Listed.{IsDirectory};
ghost use Rattle.wg_machine.specs.Need.{is_target};
ghost use Rattle.wg_node_attributes.specs.declared.attributes.NodeAttrs.{NodeAttrs as Node};
ghost use Rattle.wg_shapes.specs.Naming.{elements_of, has_target};

use std::alloc::{AllocError, Global};
use wg_chains::{Flags, Rows};
use wg_directories::{Directory, find};
use wg_node_attributes::{NodeAttrs, OutputAttr};

/// Sets the flag of a node that was found.
fn set(row: &mut [bool], found: Option<usize>)
    ensures size { length row.new ≡ length row.old }
    ensures flags { (m : ℕ) → m < length row.old → flag row.new m ≡ (flag row.old m || is_target m found) }
{
    if let Some(n) = found {
        if n < row.len() {
            row[n] = true;
        }
    }
}

/// Sets the flags of the nodes of an output's elements.
fn mark(row: &mut [bool], directory: &Directory, o: &OutputAttr)
    ensures size { length row.new ≡ length row.old }
    ensures flags { (nodes : List Node) → IsDirectory nodes directory.now → (m : ℕ) → m < length row.old → flag row.new m ≡ (flag row.old m || list_any (is_target m) (elements_of nodes o.now)) }
{
    for e in 0..o.elements as usize {
        set(
            row,
            find(directory, o.name.as_slice(), o.index as usize + e),
        );
    }
}

/// The row of a node with these outputs.
fn row(
    alloc: Global,
    directory: &Directory,
    outputs: &[OutputAttr],
    count: usize,
) -> Result<Flags, AllocError>
    ensures size { IfOk result (λ r. length r ≡ count) }
    ensures flags { IfOk result (λ r. (nodes : List Node) → IsDirectory nodes directory.now → (m : ℕ) → m < count → flag r m ≡ list_any (λ o. list_any (is_target m) (elements_of nodes o)) outputs.now) }
{
    let mut row = vec![in alloc; false; count]?;
    for o in outputs {
        mark(&mut row, directory, o);
    }
    Ok(Flags::from_vec(row))
}

/// The rows of all nodes.
pub fn links(alloc: Global, directory: &Directory, nodes: &[NodeAttrs]) -> Result<Rows, AllocError>
    requires listed { IsDirectory nodes.now directory.now }
    ensures { IfOk result (λ rows. AreLinks nodes.now rows) }
{
    let count = nodes.len();
    let mut rows = Rows::new(alloc);
    for n in 0..count {
        let row = row(alloc, directory, nodes[n].outputs.as_slice(), count)?;
        rows.push(row)?;
    }
    Ok(rows)
}
