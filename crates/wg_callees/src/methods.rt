ghost use Rattle.std.specs.Prelude.{◌≡◌, None};
ghost use Rattle.wg_typing.specs.Named.{at_name};
ghost use Rattle.wg_typing.specs.TypingObjects as o;
ghost use Rattle.wg_callees.specs.Methods as t;

use crate::builtins::interlocked_named;
use wg_typed::TypedBufferType;
use wg_typing::{Method, Object, Sharing};

fn load_named(name: &[u8]) -> Option<Method>
    ensures { result ≡ at_name o.loads name.now }
{
    if b"Load".as_slice() == name {
        return Some(Method::Load { words: 1 });
    }
    if b"Load2".as_slice() == name {
        return Some(Method::Load { words: 2 });
    }
    if b"Load3".as_slice() == name {
        return Some(Method::Load { words: 3 });
    }
    if b"Load4".as_slice() == name {
        return Some(Method::Load { words: 4 });
    }
    None
}

fn store_named(name: &[u8]) -> Option<Method>
    ensures { result ≡ at_name o.stores name.now }
{
    if b"Store".as_slice() == name {
        return Some(Method::Store { words: 1 });
    }
    if b"Store2".as_slice() == name {
        return Some(Method::Store { words: 2 });
    }
    if b"Store3".as_slice() == name {
        return Some(Method::Store { words: 3 });
    }
    if b"Store4".as_slice() == name {
        return Some(Method::Store { words: 4 });
    }
    None
}

#[tactic(auto, using(crate::proofs::NameTables::writing_is))]
fn writing_named(name: &[u8]) -> Option<Method>
    ensures { result ≡ at_name t.writing name.now }
{
    if let Some(method) = store_named(name) {
        return Some(method);
    }
    match interlocked_named(name) {
        Some(form) => Some(Method::Interlocked { form }),
        None => None,
    }
}

#[tactic(auto, using(crate::proofs::NameTables::raw_is, crate::proofs::NameTables::raw_reads))]
fn raw_named(writable: bool, name: &[u8]) -> Option<Method>
    ensures { result ≡ at_name (o.raw_methods writable) name.now }
{
    if !writable {
        return load_named(name);
    }
    if let Some(method) = load_named(name) {
        return Some(method);
    }
    writing_named(name)
}

fn buffer_named(of: TypedBufferType, name: &[u8]) -> Option<Method>
    ensures { result ≡ at_name (o.buffer_methods of) name.now }
{
    match of {
        TypedBufferType::Raw { writable } => raw_named(writable, name),
        TypedBufferType::Structured { .. } => None,
    }
}

/// Whether the words are the record's, which its groups share.
fn is_shared(sharing: Sharing) -> bool
    ensures { result ≡ o.is_shared sharing }
{
    match sharing {
        Sharing::Copied => false,
        Sharing::Shared | Sharing::Tracked => true,
    }
}

fn finishing_named(sharing: Sharing, name: &[u8]) -> Option<Method>
    ensures { result ≡ at_name (t.finishing sharing) name.now }
{
    if !is_shared(sharing) {
        return None;
    }
    if b"FinishedCrossGroupSharing".as_slice() == name {
        return Some(Method::Finished);
    }
    None
}

fn records_named(many: bool, sharing: Sharing, name: &[u8]) -> Option<Method>
    ensures { result ≡ at_name (t.of_records many sharing) name.now }
{
    if b"Get".as_slice() == name {
        return Some(Method::Get);
    }
    if !many {
        return finishing_named(sharing, name);
    }
    if b"Count".as_slice() == name {
        return Some(Method::Count);
    }
    finishing_named(sharing, name)
}

fn input_named(many: bool, number: Option<u32>, sharing: Sharing, name: &[u8]) -> Option<Method>
    ensures { result ≡ at_name (o.input_methods many number sharing) name.now }
{
    match number {
        Some(_) => records_named(many, sharing, name),
        None => if b"Count".as_slice() == name {
            Some(Method::Count)
        } else {
            None
        },
    }
}

fn increment_named(name: &[u8]) -> Option<Method>
    ensures { result ≡ at_name (o.sending None) name.now }
{
    if b"ThreadIncrementOutputCount".as_slice() == name {
        return Some(Method::Increment { group: false });
    }
    if b"GroupIncrementOutputCount".as_slice() == name {
        return Some(Method::Increment { group: true });
    }
    None
}

fn sending_named(number: Option<u32>, name: &[u8]) -> Option<Method>
    ensures { result ≡ at_name (o.sending number) name.now }
{
    let Some(_) = number else {
        return increment_named(name);
    };
    if b"GetThreadNodeOutputRecords".as_slice() == name {
        return Some(Method::Request { group: false });
    }
    if b"GetGroupNodeOutputRecords".as_slice() == name {
        return Some(Method::Request { group: true });
    }
    None
}

fn output_named(array: bool, number: Option<u32>, name: &[u8]) -> Option<Method>
    ensures { result ≡ at_name (o.output_methods array number) name.now }
{
    if array {
        return None;
    }
    if b"IsValid".as_slice() == name {
        return Some(Method::IsValid);
    }
    sending_named(number, name)
}

/// The method of a name that an object has.
pub fn method_of(object: Object, name: &[u8]) -> Option<Method>
    ensures { result ≡ o.method_of object name.now }
{
    match object {
        Object::Buffer { of, .. } => buffer_named(of, name),
        Object::Input {
            many,
            record,
            sharing,
            ..
        } => input_named(many, record, sharing, name),
        Object::Output { array, record, .. } => output_named(array, record, name),
        Object::Handle { .. } => {
            if b"Get".as_slice() == name {
                return Some(Method::Get);
            }
            if b"OutputComplete".as_slice() == name {
                return Some(Method::Complete);
            }
            None
        }
    }
}
