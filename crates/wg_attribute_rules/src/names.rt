ghost use Rattle.std.specs.Prelude.{◌≡◌, ◌||◌, take, drop};
ghost use Rattle.wg_typing.specs.AttributeNames.{attribute_names, named_in, name_of as defined_name};
ghost use Rattle.wg_typing.specs.Named as n;

use wg_attribute_arguments::is_same_name;
use wg_typed::TypedAttribute;
use wg_typing::AttributeName;

/// Those that a node alone has, but for those that say where it stands.
fn launch_attribute(name: &[u8]) -> Option<AttributeName>
    ensures { result ≡ named_in (take 8 attribute_names) name.now }
{
    if is_same_name(b"Shader", name) {
        return Some(AttributeName::Shader);
    }
    if is_same_name(b"NodeLaunch", name) {
        return Some(AttributeName::NodeLaunch);
    }
    if is_same_name(b"NumThreads", name) {
        return Some(AttributeName::NumThreads);
    }
    if is_same_name(b"NodeDispatchGrid", name) {
        return Some(AttributeName::DispatchGrid);
    }
    if is_same_name(b"NodeMaxDispatchGrid", name) {
        return Some(AttributeName::MaxDispatchGrid);
    }
    if is_same_name(b"NodeID", name) {
        return Some(AttributeName::NodeId);
    }
    if is_same_name(b"NodeIsProgramEntry", name) {
        return Some(AttributeName::ProgramEntry);
    }
    if is_same_name(b"NodeMaxRecursionDepth", name) {
        return Some(AttributeName::MaxRecursionDepth);
    }
    None
}

fn is_hint(name: &[u8]) -> bool
    ensures { result ≡ n.is_called "unroll" name.now || (n.is_called "loop" name.now || (n.is_called "branch" name.now || n.is_called "flatten" name.now)) }
{
    is_same_name(b"unroll", name)
        | (is_same_name(b"loop", name)
            | (is_same_name(b"branch", name) | is_same_name(b"flatten", name)))
}

fn other_attribute(name: &[u8]) -> Option<AttributeName>
    ensures { result ≡ named_in (drop 8 attribute_names) name.now }
{
    if is_same_name(b"MaxRecords", name) {
        return Some(AttributeName::MaxRecords);
    }
    if is_same_name(b"MaxRecordsSharedWith", name) {
        return Some(AttributeName::MaxRecordsSharedWith);
    }
    if is_same_name(b"NodeArraySize", name) {
        return Some(AttributeName::NodeArraySize);
    }
    if is_same_name(b"AllowSparseNodes", name) {
        return Some(AttributeName::AllowSparseNodes);
    }
    if is_same_name(b"NodeTrackRWInputSharing", name) {
        return Some(AttributeName::TrackSharing);
    }
    if is_hint(name) {
        return Some(AttributeName::Hint);
    }
    None
}

/// The attribute of a name.
#[tactic(auto, using(crate::proofs::Tables::named_either))]
pub fn name_of(a: &TypedAttribute) -> Option<AttributeName>
    ensures { result ≡ defined_name a.now }
{
    let name = a.name.name.as_slice();
    launch_attribute(name).or(other_attribute(name))
}
