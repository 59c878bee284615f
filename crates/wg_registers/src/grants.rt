ghost use Rattle.std.specs.Prelude.{◌≡◌, ◌≤◌, IfOk, OnOk, None, is_some, slice_get, slice_index};
ghost use Rattle.wg_state.specs.WordLists.{zeros};
ghost use Rattle.wg_state.specs.Requests.{target_of, budget_of, record_words, requested, whole_or_none, with_grant, budget_taken, denied_once, closed, is_granted, latest};

use crate::sharing::Sharing;
use crate::words::{put, word};
use std::alloc::{AllocError, Global};
use std::mem;
use wg_machine::Output;
use wg_state::Request;
use wg_words::Words;

/// Whether an element of an output has a target.
pub fn has_target(outputs: &[Output], output: u32, element: u32) -> bool
    ensures { result ≡ is_some (target_of outputs.now output element) }
{
    match outputs.get(output as usize) {
        None => false,
        Some(o) => match o.elements.get(element as usize) {
            None => false,
            Some(target) => target.is_some(),
        },
    }
}

fn budget(outputs: &[Output], output: u32) -> u32
    ensures { result ≡ budget_of (slice_get outputs.now output) }
{
    match outputs.get(output as usize) {
        None => 0,
        Some(o) => o.budget,
    }
}

fn words_each(outputs: &[Output], output: u32) -> u32
    ensures { result ≡ record_words (slice_get outputs.now output) }
{
    match outputs.get(output as usize) {
        None => 0,
        Some(o) => o.words,
    }
}

/// So many words of zeros.
pub fn zero_words(alloc: Global, count: u32) -> Result<Words, AllocError>
    ensures { IfOk result (λ list. list ≡ zeros count) }
{
    let mut list = Vec::with_capacity(alloc, count as usize)?;
    for _i in 0..count {
        list.push(0)?;
    }
    Ok(Words::from_vec(list))
}

fn add_grant(
    outputs: &[Output],
    request: Request,
    count: u32,
    world: &mut Sharing,
) -> Result<(), AllocError>
    ensures { OnOk result (world.new ≡ with_grant outputs.now request count world.old) }
{
    let words = words_each(outputs, request.output);
    world.grants.push(request, count, words)?;
    Ok(())
}

fn can_grant(outputs: &[Output], request: Request, world: &Sharing) -> bool
    ensures { result ≡ is_granted outputs.now request world.now }
{
    has_target(outputs, request.output, request.element)
        && request.amount <= word(world.left.as_slice(), budget(outputs, request.output))
}

/// Takes so many from a budget that has them.
fn take(alloc: Global, budget: u32, count: u32, world: &mut Sharing)
    requires { count ≤ slice_index world.old.left budget }
    ensures { world.new ≡ budget_taken budget count world.old }
{
    let rest = word(world.left.as_slice(), budget) - count;
    let mut left = mem::replace(&mut world.left, Words::new(alloc)).into_vec();
    put(&mut left, budget, rest);
    world.left = Words::from_vec(left);
}

fn deny(world: &mut Sharing) -> Result<(), AllocError>
    ensures { OnOk result (world.new ≡ denied_once world.old) }
{
    match world.denied.checked_add(1) {
        Some(denied) => {
            world.denied = denied;
            Ok(())
        }
        None => Err(AllocError),
    }
}

fn ask_some(
    alloc: Global,
    outputs: &[Output],
    request: Request,
    world: &mut Sharing,
) -> Result<(), AllocError>
    ensures { OnOk result (world.new ≡ whole_or_none outputs.now request world.old) }
{
    if can_grant(outputs, request, world) {
        take(
            alloc,
            budget(outputs, request.output),
            request.amount,
            world,
        );
        add_grant(outputs, request, request.amount, world)
    } else {
        deny(world)?;
        add_grant(outputs, request, 0, world)
    }
}

/// Grants a request whole, or not at all.
pub fn ask(
    alloc: Global,
    outputs: &[Output],
    request: Request,
    world: &mut Sharing,
) -> Result<(), AllocError>
    ensures { OnOk result (world.new ≡ requested outputs.now request world.old) }
{
    if request.amount == 0 {
        add_grant(outputs, request, 0, world)
    } else {
        ask_some(alloc, outputs, request, world)
    }
}

/// The last grant of a handle's lane, by its number.
pub fn latest_grant(world: &Sharing, handle: u32, lane: u32) -> Option<u64>
    ensures { result ≡ latest handle lane 0 None world.now.grants }
{
    world.grants.find(handle, lane)
}

/// Closes a grant.
pub fn close(grant: Option<u64>, world: &mut Sharing)
    ensures { world.new ≡ closed grant world.old }
{
    match grant {
        None => (),
        Some(at) => world.grants.close(at),
    }
}
