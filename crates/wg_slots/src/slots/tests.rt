ghost use Rattle.std.specs.Prelude.{◌≡◌, IfOk, OnOk, IfSome, length};
ghost use Rattle.wg_slots.specs.SlotsOf.{all_free, slots_at, IsHeld};

use super::*;
use std::test::Fail;
use wg_words::Words;

/// A plan of seven units with two slots each and one with a single slot, of one word each.
#[test]
fn the_block_has_the_words_of_all_slots(rt: HostRuntime) -> Result<(), Fail> {
    let slots = Slots::new(rt.alloc(), &[2, 2, 2, 2, 2, 2, 2, 1], &[1; 8])?;
    assert_eq!(rt; slots.block(), 15);
    assert_eq!(rt; [slots.free(6), slots.free(7), slots.waiting(6)], [2, 1, 0]);
    Ok(())
}

fn record(alloc: Global, number: u64, word: Word) -> Result<Record, AllocError>
    ensures number { IfOk result (λ made. made.number ≡ number) }
    ensures words { IfOk result (λ made. length made.words ≡ 1) }
{
    Ok(Record {
        number,
        words: Words::from_slice(alloc, &[word])?,
    })
}

fn put_two(alloc: Global, slots: &mut Slots) -> Result<(), AllocError>
    requires count { length slots.old ≡ 1 }
    requires free { slots_at slots.old 0 ≡ all_free 2 1 }
    ensures count { OnOk result (length slots.new ≡ 1) }
    ensures words { OnOk result ((slots_at slots.new 0).words ≡ 1) }
{
    let first = record(alloc, 7, 10)?;
    let second = record(alloc, 9, 20)?;
    slots.put(0, first);
    slots.put(0, second);
    Ok(())
}

/// The number and the word of the record that waits at a place.
fn front_of(slots: &Slots, place: u32) -> Option<(u64, Word)>
    requires { length slots.now ≡ 1 }
{
    if place >= slots.waiting(0) {
        return None;
    }
    let (_, seen) = slots.front(0, place);
    Some((seen.number, seen.words.first().copied().unwrap_or(0)))
}

fn held_of(slots: &Slots, slot: u32) -> (u64, Word)
    requires count { length slots.now ≡ 1 }
    requires held { IsHeld (slots_at slots.now 0) slot }
{
    let seen = slots.held(0, slot);
    (seen.number, seen.words.first().copied().unwrap_or(0))
}

fn write_first(slots: &mut Slots, word: Word)
    requires count { length slots.old ≡ 1 }
    requires words { (slots_at slots.old 0).words ≡ 1 }
    ensures count { length slots.new ≡ 1 }
    ensures words { (slots_at slots.new 0).words ≡ 1 }
{
    if slots.waiting(0) > 0 {
        let _slot = slots.front(0, 0).0;
        slots.write_front(0, &[word]);
    }
}

fn hold_first(slots: &mut Slots) -> Option<u32>
    requires count { length slots.old ≡ 1 }
    requires words { (slots_at slots.old 0).words ≡ 1 }
    ensures count { length slots.new ≡ 1 }
    ensures words { (slots_at slots.new 0).words ≡ 1 }
    ensures held { IfSome result (IsHeld (slots_at slots.new 0)) }
{
    if slots.waiting(0) == 0 {
        return None;
    }
    Some(slots.hold(0))
}

/// The record that is held, before and after it is given another word; then its slot is released.
fn used_up(slots: &mut Slots, slot: u32, word: Word) -> [(u64, Word); 2]
    requires count { length slots.old ≡ 1 }
    requires words { (slots_at slots.old 0).words ≡ 1 }
    requires held { IsHeld (slots_at slots.old 0) slot }
    ensures count { length slots.new ≡ 1 }
{
    let before = held_of(slots, slot);
    slots.write_held(0, slot, &[word]);
    let after = held_of(slots, slot);
    slots.release(0, slot);
    [before, after]
}

#[test]
fn a_record_waits_is_held_and_leaves_its_slot(rt: HostRuntime) -> Result<(), Fail> {
    let mut slots = Slots::new(rt.alloc(), &[2], &[1])?;
    put_two(rt.alloc(), &mut slots)?;
    assert_eq!(rt;
        [
            front_of(&slots, 0),
            front_of(&slots, 1),
            front_of(&slots, 2)
        ],
        [Some((7, 10)), Some((9, 20)), None]
    );
    write_first(&mut slots, 11);
    let held = match hold_first(&mut slots) {
        Some(slot) => used_up(&mut slots, slot, 12),
        None => [(0, 0), (0, 0)],
    };
    assert_eq!(rt; held, [(7, 11), (7, 12)]);
    assert_eq!(rt; (slots.free(0), front_of(&slots, 0)), (1, Some((9, 20))));
    Ok(())
}
