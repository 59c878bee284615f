ghost use Rattle.std.specs.Prelude.{◌≡◌, ℕ, is_none, List, Option, IfOk};
ghost use Rattle.std.specs.List.{list_any};
ghost use Rattle.wg_directories.specs.Listed.{IsDirectory};
ghost use Rattle.wg_node_attributes.specs.declared.attributes.NodeAttrs.{NodeAttrs};
ghost use Rattle.wg_shapes.specs.Naming.{elements_of};

use crate::by_name::{Directory, find};
use std::alloc::{AllocError, Global};
use wg_node_attributes::OutputAttr;
use wg_words::Items;

/// The places of the nodes of an output's elements, none where there is no such node.
pub fn elements(
    alloc: Global,
    directory: &Directory,
    o: &OutputAttr,
) -> Result<Items<Option<usize>>, AllocError>
    ensures { IfOk result (λ r. (nodes : List NodeAttrs) → IsDirectory nodes directory.now → r ≡ elements_of nodes o.now) }
{
    let mut places = Items::new(alloc);
    for e in 0..o.elements as usize {
        places.push(find(directory, o.name.as_slice(), o.index as usize + e))?;
    }
    Ok(places)
}

/// Whether an element of an output has no node.
pub fn has_absent(directory: &Directory, o: &OutputAttr) -> bool
    ensures { (nodes : List NodeAttrs) → IsDirectory nodes directory.now → result ≡ list_any is_none (elements_of nodes o.now) }
{
    for e in 0..o.elements as usize {
        if find(directory, o.name.as_slice(), o.index as usize + e).is_none() {
            return true;
        }
    }
    false
}
