ghost use Rattle.std.specs.Prelude.{◌≡◌, ◌+◌, ◌<◌, ◌≤◌, ◌^◌, ℕ, List, length, Option, map, IfOk};
ghost use Rattle.std.specs.List.{list_any, position};
ghost use Rattle.wg_machine.specs.GoodShape.{IsGoodShape};
ghost use Rattle.wg_tool.specs.declared.pair.Pair.{Pair as PairOf};
ghost use Rattle.wg_tool.specs.FirstForm.{is_named, IsFirstForm};
ghost use Rattle.wg_machine.specs.Need.{is_target, greatest};
ghost use Rattle.wg_machine.specs.Unrolling.{sends_to, depth_of};
ghost use Rattle.wg_tool.specs.Wiring.{target_in, targets_of, is_free, budgets_of, outputs_of, unit_of, units_of, node_of, shape_of};

use crate::pair::{Pair, Sends};
use std::alloc::{AllocError, Global};
use wg_machine::{Kind, NodeName, NodeNames, Output, Outputs, Shape, Targets, Unit, Units};
use wg_words::{Items, Names, TryCopy, Words};

/// The place of the first pair of a name.
pub fn place_of(pairs: &[Pair], name: &[u8]) -> Option<usize>
    ensures { result ≡ position (is_named name.now) pairs.now }
{
    pairs.iter().position(|pair| pair.name.as_slice() == name)
}

/// The number of the pair that a node sends to, of those from `first` on.
fn target_in(first: u32, sends: &Option<Sends>, pairs: &[Pair]) -> Option<u32>
    requires { first + length pairs.now < 2 ^ 32 }
    ensures { result ≡ target_in first sends.now pairs.now }
{
    match sends {
        None => None,
        Some(sends) => match place_of(pairs, sends.target.as_slice()) {
            None => None,
            Some(place) => Some(first + place as u32),
        },
    }
}

/// For each pair the number of the later one that it sends to.
pub fn targets_of(alloc: Global, pairs: &[Pair]) -> Result<Targets, AllocError>
    requires { length pairs.now ≤ 32 }
    ensures { IfOk result (λ targets. targets ≡ targets_of pairs.now) }
{
    let mut targets = Targets::new(alloc);
    for (place, pair) in pairs.iter().enumerate() {
        targets.push(target_in(place as u32 + 1, &pair.sends, &pairs[place + 1..]))?;
    }
    Ok(targets)
}

fn is_target(unit: u32, target: &Option<u32>) -> bool
    ensures { result ≡ is_target unit target.now }
{
    match target {
        None => false,
        Some(target) => *target == unit,
    }
}

fn has_target(targets: &[Option<u32>], unit: u32) -> bool
    ensures { result ≡ list_any (is_target unit) targets.now }
{
    targets.iter().any(|target| is_target(unit, target))
}

/// Whether nothing is sent to a unit.
pub fn is_free(targets: &[Option<u32>], unit: u32) -> bool
    ensures { result ≡ is_free targets.now unit }
{
    !has_target(targets, unit)
}

fn sends_to(unit: &Unit, target: u32) -> bool
    ensures { result ≡ sends_to target unit.now }
{
    for output in unit.outputs.as_slice() {
        if has_target(output.elements.as_slice(), target) {
            return true;
        }
    }
    false
}

/// One more than the greatest depth of the units that send to one.
fn depth_of(units: &[Unit], unit: u32) -> u32
    requires { depth_of units.now unit < 2 ^ 32 }
    ensures { result ≡ depth_of units.now unit }
{
    let mut deepest = 0;
    for source in units {
        if sends_to(source, unit) {
            deepest = deepest.max(source.depth);
        }
    }
    deepest + 1
}

fn outputs_of(alloc: Global, target: Option<u32>) -> Result<Outputs, AllocError>
    ensures { IfOk result (λ outputs. outputs ≡ outputs_of target) }
{
    let mut outputs = Outputs::new(alloc);
    if target.is_some() {
        outputs.push(Output {
            budget: 0,
            words: 1,
            elements: Targets::from_slice(alloc, &[target])?,
        })?;
    }
    Ok(outputs)
}

fn budgets_of(alloc: Global, target: Option<u32>) -> Result<Words, AllocError>
    ensures { IfOk result (λ budgets. budgets ≡ budgets_of target) }
{
    if target.is_some() {
        Words::from_slice(alloc, &[1])
    } else {
        Ok(Words::new(alloc))
    }
}

fn unit_of(
    alloc: Global,
    targets: &[Option<u32>],
    number: u32,
    depth: u32,
    target: Option<u32>,
) -> Result<Unit, AllocError>
    ensures { IfOk result (λ unit. unit ≡ unit_of targets.now number depth target) }
{
    Ok(Unit {
        node: number,
        level: 0,
        depth,
        words: 1,
        stride: 4,
        kind: Kind::Thread,
        entry: is_free(targets, number),
        budgets: budgets_of(alloc, target)?,
        outputs: outputs_of(alloc, target)?,
        bools: Words::new(alloc),
        shared: false,
    })
}

fn units_of(alloc: Global, targets: &[Option<u32>]) -> Result<Units, AllocError>
    requires { length targets.now ≤ 32 }
    ensures { IfOk result (λ units. units ≡ units_of targets.now) }
{
    let mut units = Units::new(alloc);
    for (place, target) in targets.iter().enumerate() {
        let depth = depth_of(units.as_slice(), place as u32);
        units.push(unit_of(alloc, targets, place as u32, depth, *target)?)?;
    }
    Ok(units)
}

fn nodes_of(alloc: Global, pairs: &[Pair]) -> Result<NodeNames, AllocError>
    ensures { IfOk result (λ nodes. nodes ≡ map node_of pairs.now) }
{
    let mut nodes = NodeNames::new(alloc);
    for pair in pairs {
        nodes.push(NodeName {
            name: pair.name.copy(alloc)?,
            index: 0,
        })?;
    }
    Ok(nodes)
}

/// The shape of a graph, from its pairs and their targets.
pub fn shape_of(alloc: Global, pairs: &[Pair], targets: &[Option<u32>]) -> Result<Shape, AllocError>
    requires few { length targets.now ≤ 32 }
    requires targets { targets.now ≡ targets_of pairs.now }
    ensures { IfOk result (λ shape. shape ≡ shape_of pairs.now) }
{
    Ok(Shape {
        nodes: nodes_of(alloc, pairs)?,
        units: units_of(alloc, targets)?,
        buffers: Names::new(alloc),
    })
}

/// The shape of each graph of the first form is good.
pub fn shapes_are_good()
    ensures { (pairs : List PairOf) → IsFirstForm pairs → IsGoodShape (shape_of pairs) }
{}
