ghost use Rattle.std.specs.Prelude.{◌≡◌, ◌≤◌, ◌<◌, ◌^◌, ◌+◌, ◌++◌, ◌∷◌, [], ℕ, IfOk, IfSome, OnOk, length, if◌then◌else◌, unwrap_or};
ghost use Rattle.std.specs.List.{flat_map, position};
ghost use Rattle.wg_words.specs.declared.limits.TheConstants.{MOST_STRIDE};
ghost use Rattle.wg_machine.specs.Grids.{same_group, without_group};
ghost use Rattle.wg_machine.specs.State.{born, kept, live_of};
ghost use Rattle.wg_machine.specs.Step.{after_group, left_after};
ghost use Rattle.wg_machine.specs.Units.{stride_at};
ghost use Rattle.wg_plain.specs.Sizes.{bytes_of_bag};

use crate::bag::is_listed;
use crate::grid::groups_for;
use std::alloc::{AllocError, Global};
use wg_machine::{Bag, Groups, Live, Sent, Shape, is_same_group};
use wg_words::{TryCopy, Words};

fn place_in(groups: &[[u32; 3]], at: &[u32; 3]) -> Option<usize>
    ensures first { result ≡ position (λ g. same_group g at.now) groups.now }
    ensures within { IfSome result (λ i. i < length groups.now) }
{
    groups.iter().position(|group| is_same_group(group, at))
}

fn without(groups: Groups, at: &[u32; 3]) -> Groups
    ensures { result ≡ without_group at.now groups }
{
    let mut groups = groups.into_vec();
    let Some(i) = place_in(groups.as_slice(), at) else {
        return Groups::from_vec(groups);
    };
    let _ = groups.remove(i);
    Groups::from_vec(groups)
}

fn push_kept(bag: &mut Bag, live: Live) -> Result<(), AllocError>
    ensures { OnOk result (bag.new ≡ bag.old ++ kept live) }
{
    if live.groups.is_empty() {
        return Ok(());
    }
    bag.push(live)
}

/// The new words of a record, or its own where there are no new ones.
fn words_after(alloc: Global, words: Words, new: &Option<Words>) -> Result<Words, AllocError>
    ensures { IfOk result (λ after. after ≡ unwrap_or new.now words) }
{
    match new {
        Some(new) => new.copy(alloc),
        None => Ok(words),
    }
}

fn push_left(
    alloc: Global,
    bag: &mut Bag,
    live: Live,
    ran: bool,
    at: &[u32; 3],
    new: &Option<Words>,
) -> Result<(), AllocError>
    ensures { OnOk result (bag.new ≡ bag.old ++ (if ran then kept (after_group at.now new.now live) else live ∷ [])) }
{
    if !ran {
        return bag.push(live);
    }
    let Live {
        number,
        unit,
        words,
        grid,
        groups,
    } = live;
    let left = Live {
        number,
        unit,
        words: words_after(alloc, words, new)?,
        grid,
        groups: without(groups, at),
    };
    push_kept(bag, left)
}

/// The bag after the records with these numbers have run a group, with the new words that it left them.
pub fn after_launch(
    alloc: Global,
    bag: Bag,
    numbers: &[u64],
    at: &[u32; 3],
    new: &Option<Words>,
) -> Result<Bag, AllocError>
    ensures { IfOk result (λ left. left ≡ left_after numbers.now at.now new.now bag) }
{
    let mut left = Bag::new(alloc);
    for live in bag.into_vec() {
        let ran = is_listed(numbers, live.number);
        push_left(alloc, &mut left, live, ran, at, new)?;
    }
    Ok(left)
}

fn push_new(
    alloc: Global,
    shape: &Shape,
    bag: &mut Bag,
    number: u64,
    sent: &Sent,
) -> Result<(), AllocError>
    ensures { OnOk result (bag.new ≡ bag.old ++ kept (live_of shape.now number sent.now)) }
{
    let grid = shape.kind(sent.unit).grid(sent.words.as_slice());
    let live = Live {
        number,
        unit: sent.unit,
        words: sent.words.copy(alloc)?,
        grid,
        groups: groups_for(alloc, &grid)?,
    };
    push_kept(bag, live)
}

/// Puts records into the bag, numbered on from a number.
pub fn arrive(
    alloc: Global,
    shape: &Shape,
    bag: &mut Bag,
    next: u64,
    sent: &[Sent],
) -> Result<(), AllocError>
    requires { next + length sent.now < 2 ^ 64 }
    ensures { OnOk result (bag.new ≡ bag.old ++ flat_map kept (born shape.now next sent.now)) }
{
    let mut number = next;
    for record in sent {
        push_new(alloc, shape, bag, number, record)?;
        number += 1;
    }
    Ok(())
}

/// The bytes of the live records that were born of a launch: `handed` is the number of entry records.
pub fn bytes_of(shape: &Shape, bag: &[Live], handed: u64) -> u64
    requires strides { (u : ℕ) → stride_at shape.now u ≤ MOST_STRIDE }
    requires few { length bag.now < 2 ^ 50 }
    ensures { result ≡ bytes_of_bag shape.now handed bag.now }
{
    let mut bytes = 0;
    for live in bag {
        if live.number >= handed {
            bytes += u64::from(shape.stride(live.unit));
        }
    }
    bytes
}
