ghost use Rattle.std.specs.Prelude.{◌≡◌, ◌<◌, ◌^◌, ℕ, List, length, IfOk, OnOk};
ghost use Rattle.std.specs.Option.{option_map};
ghost use Rattle.wg_script.specs.Naming.{is_entry_of as takes_entries, entry_at, node_place, place_among};
ghost use Rattle.wg_text.specs.Names.{found_in};
ghost use Rattle.wg_script.specs.Names.{NamesShape, node_key as node_key_of, node_in, buffer_in};

use std::alloc::{AllocError, Global};
use wg_machine::{Shape, Unit};
use wg_text::NameMap;
use wg_words::Name;

/// The entry units of a shape by the keys of their nodes, and the places of its buffers by their names.
#[derive(Drop)]
pub struct ScriptNames {
    nodes: NameMap<Option<u32>>,
    buffers: NameMap<usize>,
}

/// The key of a node: the four bytes of its index, then its name.
fn node_key(alloc: Global, name: &[u8], index: u32) -> Result<Vec<u8>, AllocError>
    ensures key { IfOk result (λ key. key.items ≡ node_key_of name.now index) }
    ensures fits { OnOk result (index < 2 ^ 32) }
{
    let mut key = Vec::from_slice(alloc, &index.to_be_bytes())?;
    key.extend_from_slice(name)?;
    Ok(key)
}

fn is_entry_of(node: usize, unit: &Unit) -> bool
    ensures { result ≡ takes_entries node unit.now }
{
    unit.entry && unit.node as usize == node
}

/// The unit that takes a node's entry records, where the node is an entry.
fn entry_unit(shape: &Shape, node: usize) -> Option<u32>
    requires { length shape.now.units < 2 ^ 32 }
    ensures { result ≡ entry_at shape.now node }
{
    for (number, unit) in shape.units.as_slice().iter().enumerate() {
        if is_entry_of(node, unit) {
            return Some(number as u32);
        }
    }
    None
}

/// The nodes by their keys. The first of equal ones is put last, and stays.
fn node_map(alloc: Global, shape: &Shape) -> Result<NameMap<Option<u32>>, AllocError>
    requires { length shape.now.units < 2 ^ 32 }
    ensures { IfOk result (λ map. (name : List ℕ) (index : ℕ) → index < 2 ^ 32 → found_in map (node_key_of name index) ≡ option_map (entry_at shape.now) (node_place shape.now name index)) }
{
    let nodes = shape.nodes.as_slice();
    let mut map = NameMap::new(alloc);
    let mut place = nodes.len();
    while place > 0 {
        place -= 1;
        let node = &nodes[place];
        let key = node_key(alloc, node.name.as_slice(), node.index)?;
        map.insert(key, entry_unit(shape, place))?;
    }
    Ok(map)
}

/// The buffers by their names.
fn buffer_map(alloc: Global, names: &[Name]) -> Result<NameMap<usize>, AllocError>
    ensures { IfOk result (λ map. (name : List ℕ) → found_in map name ≡ place_among names.now name) }
{
    let mut map = NameMap::new(alloc);
    let mut place = names.len();
    while place > 0 {
        place -= 1;
        let name = Vec::from_slice(alloc, names[place].as_slice())?;
        map.insert(name, place)?;
    }
    Ok(map)
}

impl ScriptNames {
    pub fn new(alloc: Global, shape: &Shape) -> Result<ScriptNames, AllocError>
        requires { length shape.now.units < 2 ^ 32 }
        ensures { IfOk result (λ names. NamesShape shape.now names) }
    {
        let nodes = node_map(alloc, shape)?;
        let buffers = buffer_map(alloc, shape.buffers.as_slice())?;
        Ok(ScriptNames { nodes, buffers })
    }

    /// The entry unit, if there is one, of the node of a name and an index.
    pub fn node(
        &self,
        alloc: Global,
        name: &[u8],
        index: u32,
    ) -> Result<Option<Option<u32>>, AllocError>
        ensures found { IfOk result (λ node. node ≡ node_in self.now name.now index) }
        ensures fits { OnOk result (index < 2 ^ 32) }
    {
        let key = node_key(alloc, name, index)?;
        Ok(self.nodes.get(key.as_slice()))
    }

    /// The place of a buffer of this name.
    pub fn buffer(&self, name: &[u8]) -> Option<usize>
        ensures { result ≡ buffer_in self.now name.now }
    {
        self.buffers.get(name)
    }
}
