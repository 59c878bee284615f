ghost use Rattle.std.specs.Prelude.{◌≡◌, ◌<◌, ℕ, if◌then◌else◌, List, Some, IfOk, OnOk};
ghost use Rattle.wg_directories.specs.Listed.{listed_at, IsDirectory};
ghost use Rattle.wg_node_attributes.specs.declared.attributes.NodeAttrs.{NodeAttrs as Node};
ghost use Rattle.wg_shapes.specs.Naming.{is_named, node_named};
ghost use Rattle.wg_text.specs.Names.{found_in};
ghost use Rattle.wg_words.specs.Each.{Each};
ghost use Rattle.wg_words.specs.declared.limits.TheConstants.{MOST_ELEMENTS};

use std::alloc::{AllocError, Global};
use wg_node_attributes::NodeAttrs;
use wg_text::NameMap;
use wg_words::limits::MOST_ELEMENTS;
use wg_words::{Items, TryCopy};

/// The nodes of a graph by index and name (DirectX-Specs, Work Graphs, "NodeID"): for each index the names of the nodes that have it,
/// each with the place of the first such node.
pub type Directory = Items<NameMap<usize>>;

/// One more node, where it has the index. Of two equal names the one that comes later counts.
fn add(
    alloc: Global,
    table: &mut NameMap<usize>,
    index: usize,
    a: &NodeAttrs,
    place: usize,
) -> Result<(), AllocError>
    ensures { OnOk result ((name : List ℕ) → found_in table.new name ≡ (if is_named name index a.now then Some place else found_in table.old name)) }
{
    if a.index as usize != index {
        return Ok(());
    }
    let name = a.name.copy(alloc)?;
    table.insert(name.into_vec(), place)
}

/// The names of the nodes that have an index. The first of equal ones is put last, and stays.
fn table(alloc: Global, nodes: &[NodeAttrs], index: usize) -> Result<NameMap<usize>, AllocError>
    ensures { IfOk result (λ table. (name : List ℕ) → found_in table name ≡ node_named nodes.now name index) }
{
    let mut table = NameMap::new(alloc);
    let mut place = nodes.len();
    while place > 0 {
        place -= 1;
        add(alloc, &mut table, index, &nodes[place], place)?;
    }
    Ok(table)
}

/// The directory of nodes whose indices are below 256.
pub fn directory(alloc: Global, nodes: &[NodeAttrs]) -> Result<Directory, AllocError>
    requires few { Each (λ (a : Node). a.index < MOST_ELEMENTS) nodes.now }
    ensures { IfOk result (λ d. IsDirectory nodes.now d) }
{
    let mut directory = Directory::new(alloc);
    for index in 0..MOST_ELEMENTS {
        let names = table(alloc, nodes, index)?;
        directory.push(names)?;
    }
    Ok(directory)
}

/// The place of the first node of a name and an index.
pub fn find(directory: &Directory, name: &[u8], index: usize) -> Option<usize>
    ensures { result ≡ listed_at directory.now name.now index }
{
    match directory.get(index) {
        Some(names) => names.get(name),
        None => None,
    }
}
