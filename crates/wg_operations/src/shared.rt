ghost use Rattle.std.specs.Prelude.{◌≡◌, false, length, IfOk, OnOk, Some, None, slice_get, slice_index};
ghost use Rattle.wg_code.specs.Functions.{missing};
ghost use Rattle.wg_code.specs.OpMeaning.{does};
ghost use Rattle.wg_code.specs.declared.op.Op.TheOpen.{Op-F};
ghost use Rattle.wg_code.specs.Records.{owner_of};
ghost use Rattle.wg_state.specs.Requests.{requested, latest};
ghost use Rattle.wg_registers.specs.Given.{around_of};
ghost use Rattle.wg_operations.specs.Says.{Makes};

use std::alloc::AllocError;
use wg_registers::{
    Around, Outside, RecordSpot, Sharing, ask, close, exchange, handle_output,
    input_count as count_inputs, latest_grant, owner, put, put_input, put_record, put_shared,
    ranged_word, record_word, word,
};
use wg_state::Request;
use wg_words::Word;

/// A range of words and the register of an index into it.
#[derive(Clone, Copy)]
pub struct Place {
    pub from: u32,
    pub to: u32,
    pub index: u32,
}

/// An interlocked form by its number, with the registers of its compare value and of its value.
#[derive(Clone, Copy)]
pub struct Form {
    pub op: u32,
    pub compare: u32,
    pub value: u32,
}

/// A word of a record of a handle, by the registers of the record's index and of the word's.
#[derive(Clone, Copy)]
pub struct Spot {
    pub handle: u32,
    pub index: u32,
    pub from: u32,
    pub to: u32,
    pub word: u32,
}

/// The registers of an element of an output and of a number of records.
#[derive(Clone, Copy)]
pub struct Asked {
    pub output: u32,
    pub element: u32,
    pub amount: u32,
}

/// `SharedAtomic`.
pub fn shared_atomic(
    around: &Around<'_>,
    registers: &mut [Word],
    s: &mut Outside,
    d: u32,
    form: Form,
    at: Place,
)
    ensures makes { Makes (does (around_of around.now) (λ f. missing false) (Op-F.SharedAtomic form.op d at.from at.to at.index form.compare form.value)) registers.old s.old registers.new s.new }
    ensures turns { s.new.turns ≡ s.old.turns }
{
    let _ = around;
    let index = word(registers, at.index);
    let compare = word(registers, form.compare);
    let value = word(registers, form.value);
    let old = ranged_word(s.shared.as_slice(), at.from, at.to, index);
    let new = exchange(form.op, old, compare, value);
    put_shared(&mut s.shared, at.from, at.to, index, new);
    put(registers, d, old);
}

/// `InputPut`.
pub fn set_input(
    around: &Around<'_>,
    registers: &[Word],
    s: &mut Outside,
    input: u32,
    at: u32,
    a: u32,
)
    ensures makes { Makes (does (around_of around.now) (λ f. missing false) (Op-F.InputPut input at a)) registers.now s.old registers.now s.new }
    ensures turns { s.new.turns ≡ s.old.turns }
{
    let record = word(registers, input);
    let index = word(registers, at);
    let value = word(registers, a);
    put_input(&mut s.world, around.alloc, record, index, value);
}

fn ask_for(
    around: &Around<'_>,
    registers: &[Word],
    s: &mut Outside,
    handle: Option<u32>,
    asked: Asked,
) -> Result<(), AllocError>
    ensures { OnOk result (s.new ≡ record s.old { world = requested around.now.outputs.now (record { handle = handle; lane = around.now.lane; output = asked.output; element = slice_index registers.now asked.element; amount = slice_index registers.now asked.amount }) s.old.world }) }
{
    let element = word(registers, asked.element);
    let amount = word(registers, asked.amount);
    let request = Request {
        handle,
        lane: around.lane,
        output: asked.output,
        element,
        amount,
    };
    ask(around.alloc, around.outputs, request, &mut s.world)
}

/// `Request`.
#[tactic(auto, using(crate::proofs::Worlds::requested_over))]
pub fn request(
    around: &Around<'_>,
    registers: &[Word],
    s: &mut Outside,
    handle: u32,
    element: u32,
    amount: u32,
) -> Result<(), AllocError>
    ensures makes { OnOk result (Makes (does (around_of around.now) (λ f. missing false) (Op-F.Request handle element amount)) registers.now s.old registers.now s.new) }
    ensures turns { OnOk result (s.new.turns ≡ s.old.turns) }
{
    let asked = Asked {
        output: handle_output(around, handle),
        element,
        amount,
    };
    ask_for(around, registers, s, Some(handle), asked)
}

/// `Increment`.
#[tactic(auto, using(crate::proofs::Worlds::requested_over))]
pub fn increment(
    around: &Around<'_>,
    registers: &[Word],
    s: &mut Outside,
    asked: Asked,
) -> Result<(), AllocError>
    ensures makes { OnOk result (Makes (does (around_of around.now) (λ f. missing false) (Op-F.Increment asked.output asked.element asked.amount)) registers.now s.old registers.now s.new) }
    ensures turns { OnOk result (s.new.turns ≡ s.old.turns) }
{
    ask_for(around, registers, s, None, asked)
}

fn last_grant(around: &Around<'_>, world: &Sharing, handle: u32) -> Option<u64>
    ensures { result ≡ latest handle (owner_of (slice_get around.now.handles.now handle) around.now.lane) 0 None world.now.grants }
{
    latest_grant(world, handle, owner(around, handle))
}

/// `RecordGet`.
pub fn get_record(around: &Around<'_>, registers: &mut [Word], s: &Outside, d: u32, at: Spot)
    ensures makes { Makes (does (around_of around.now) (λ f. missing false) (Op-F.RecordGet d at.handle at.index at.from at.to at.word)) registers.old s.now registers.new s.now }
{
    let grant = last_grant(around, &s.world, at.handle);
    let spot = RecordSpot {
        record: word(registers, at.index),
        from: at.from,
        to: at.to,
        word: word(registers, at.word),
    };
    let value = record_word(&s.world, grant, spot);
    put(registers, d, value);
}

/// `RecordPut`.
pub fn set_record(around: &Around<'_>, registers: &[Word], s: &mut Outside, at: Spot, a: u32)
    ensures makes { Makes (does (around_of around.now) (λ f. missing false) (Op-F.RecordPut at.handle at.index at.from at.to at.word a)) registers.now s.old registers.now s.new }
    ensures turns { s.new.turns ≡ s.old.turns }
{
    let grant = last_grant(around, &s.world, at.handle);
    let spot = RecordSpot {
        record: word(registers, at.index),
        from: at.from,
        to: at.to,
        word: word(registers, at.word),
    };
    let value = word(registers, a);
    put_record(&mut s.world, grant, spot, value);
}

/// `Complete`.
#[tactic(auto, using(crate::proofs::Worlds::closed_over))]
pub fn complete(around: &Around<'_>, registers: &[Word], s: &mut Outside, handle: u32)
    ensures makes { Makes (does (around_of around.now) (λ f. missing false) (Op-F.Complete handle)) registers.now s.old registers.now s.new }
    ensures turns { s.new.turns ≡ s.old.turns }
{
    let grant = last_grant(around, &s.world, handle);
    close(grant, &mut s.world);
}

/// How many input records there are.
pub fn input_count(s: &Outside) -> Result<u32, AllocError>
    ensures { IfOk result (λ n. n ≡ length s.now.world.inputs) }
{
    match u32::try_from(count_inputs(&s.world)) {
        Ok(count) => Ok(count),
        Err(_) => Err(AllocError),
    }
}
