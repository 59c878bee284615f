ghost use Rattle.std.specs.Prelude.{◌≡◌};
ghost use Rattle.wg_typing.specs.Named.{at_name};
ghost use Rattle.wg_typing.specs.TypingCallee as c;
ghost use Rattle.wg_typing.specs.TypingInterlocked as i;

use wg_typed::{InterlockedForm, Intrinsic};
use wg_typing::{Around, Builtin};

/// The intrinsic of a name.
fn intrinsic_named(name: &[u8]) -> Option<Intrinsic>
    ensures { result ≡ at_name c.intrinsics name.now }
{
    if b"min".as_slice() == name {
        return Some(Intrinsic::Min);
    }
    if b"max".as_slice() == name {
        return Some(Intrinsic::Max);
    }
    if b"clamp".as_slice() == name {
        return Some(Intrinsic::Clamp);
    }
    if b"abs".as_slice() == name {
        return Some(Intrinsic::Abs);
    }
    if b"mad".as_slice() == name {
        return Some(Intrinsic::MultiplyAdd);
    }
    if b"countbits".as_slice() == name {
        return Some(Intrinsic::CountBits);
    }
    if b"firstbithigh".as_slice() == name {
        return Some(Intrinsic::FirstBitHigh);
    }
    if b"firstbitlow".as_slice() == name {
        return Some(Intrinsic::FirstBitLow);
    }
    if b"reversebits".as_slice() == name {
        return Some(Intrinsic::ReverseBits);
    }
    if b"any".as_slice() == name {
        return Some(Intrinsic::Any);
    }
    if b"all".as_slice() == name {
        return Some(Intrinsic::All);
    }
    if b"select".as_slice() == name {
        return Some(Intrinsic::Select);
    }
    if b"and".as_slice() == name {
        return Some(Intrinsic::And);
    }
    if b"or".as_slice() == name {
        return Some(Intrinsic::Or);
    }
    None
}

/// The interlocked form of a name.
pub fn interlocked_named(name: &[u8]) -> Option<InterlockedForm>
    ensures { result ≡ at_name i.interlocked_names name.now }
{
    if b"InterlockedAdd".as_slice() == name {
        return Some(InterlockedForm::Add);
    }
    if b"InterlockedMin".as_slice() == name {
        return Some(InterlockedForm::Min);
    }
    if b"InterlockedMax".as_slice() == name {
        return Some(InterlockedForm::Max);
    }
    if b"InterlockedAnd".as_slice() == name {
        return Some(InterlockedForm::And);
    }
    if b"InterlockedOr".as_slice() == name {
        return Some(InterlockedForm::Or);
    }
    if b"InterlockedXor".as_slice() == name {
        return Some(InterlockedForm::Xor);
    }
    if b"InterlockedExchange".as_slice() == name {
        return Some(InterlockedForm::Exchange);
    }
    if b"InterlockedCompareExchange".as_slice() == name {
        return Some(InterlockedForm::CompareExchange);
    }
    if b"InterlockedCompareStore".as_slice() == name {
        return Some(InterlockedForm::CompareStore);
    }
    None
}

fn barrier_named(name: &[u8]) -> Option<Builtin>
    ensures { result ≡ at_name c.barriers name.now }
{
    if b"GroupMemoryBarrier".as_slice() == name {
        return Some(Builtin::Barrier { syncs: false });
    }
    if b"GroupMemoryBarrierWithGroupSync".as_slice() == name {
        return Some(Builtin::Barrier { syncs: true });
    }
    if b"DeviceMemoryBarrier".as_slice() == name {
        return Some(Builtin::Barrier { syncs: false });
    }
    if b"DeviceMemoryBarrierWithGroupSync".as_slice() == name {
        return Some(Builtin::Barrier { syncs: true });
    }
    if b"AllMemoryBarrier".as_slice() == name {
        return Some(Builtin::Barrier { syncs: false });
    }
    if b"AllMemoryBarrierWithGroupSync".as_slice() == name {
        return Some(Builtin::Barrier { syncs: true });
    }
    if b"Barrier".as_slice() == name {
        return Some(Builtin::BarrierOf);
    }
    None
}

/// The call of the language that a name is, in any function.
#[tactic(auto, using(crate::proofs::NameTables::everywhere_is))]
fn everywhere(name: &[u8]) -> Option<Builtin>
    ensures { result ≡ at_name c.everywhere name.now }
{
    if let Some(call) = intrinsic_named(name) {
        return Some(Builtin::OnNumbers { call });
    }
    if let Some(form) = interlocked_named(name) {
        return Some(Builtin::Interlocked { form });
    }
    barrier_named(name)
}

/// The call of the language that a name is: the level is known in an entry function alone.
pub fn builtin_named(around: &Around, name: &[u8]) -> Option<Builtin>
    ensures { result ≡ at_name (c.builtins around.now) name.now }
{
    match around {
        Around::Entry { .. } => {
            if b"GetRemainingRecursionLevels".as_slice() == name {
                return Some(Builtin::Levels);
            }
            everywhere(name)
        }
        Around::Plain | Around::Const | Around::Attribute { .. } => everywhere(name),
    }
}
