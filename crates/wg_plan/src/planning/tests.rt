ghost use Rattle.std.specs.Prelude.{IsTrue};
ghost use Rattle.wg_plan.specs.Limits.{IsSmall, IsSmallUnit};

use super::*;
use std::test::Fail;
use wg_machine::{Kind, NodeNames, Output, Outputs, Targets, Unit, Units};
use wg_words::Names;

/// A unit's stride, its budgets, and its outputs, each with its budget and its elements' targets.
type UnitRow = (
    u32,
    &'static [u32],
    &'static [(u32, &'static [Option<u32>])],
);

fn unit(alloc: Global, row: UnitRow) -> Result<Unit, AllocError> {
    let (stride, budgets, output_rows) = row;
    let mut outputs = Outputs::new(alloc);
    for (budget, elements) in output_rows {
        outputs.push(Output {
            budget: *budget,
            words: stride / 4,
            elements: Targets::from_slice(alloc, elements)?,
        })?;
    }
    Ok(Unit {
        node: 0,
        level: 0,
        depth: 1,
        words: stride / 4,
        stride,
        kind: Kind::Thread,
        entry: false,
        budgets: Words::from_slice(alloc, budgets)?,
        outputs,
        bools: Words::new(alloc),
        shared: false,
    })
}

fn shape(alloc: Global, rows: &[UnitRow]) -> Result<Shape, AllocError> {
    let mut units = Units::new(alloc);
    for row in rows {
        units.push(unit(alloc, *row)?)?;
    }
    Ok(Shape {
        nodes: NodeNames::new(alloc),
        units,
        buffers: Names::new(alloc),
    })
}

fn is_small_unit(unit: &Unit) -> bool
    ensures { IsTrue result → IsSmallUnit unit.now }
{
    let few = unit.outputs.len() <= 64;
    let low = unit.budgets.as_slice().iter().all(|most| *most <= 256);
    few && low && unit.stride <= 8192
}

fn is_small(shape: &Shape) -> bool
    ensures { IsTrue result → IsSmall shape.now }
{
    let units = shape.units.as_slice();
    units.len() <= 8192 && units.iter().all(|unit| is_small_unit(unit))
}

/// The width, slots, least, greatest and bytes of a plan, or its fault.
type Planned = Result<(u32, &'static [u32], u64, u64, u64), PlanFault>;

/// A node that sends up to two records to itself, at its three levels.
const CHAIN: [UnitRow; 3] = [
    (4, &[2], &[(0, &[Some(1)])]),
    (4, &[2], &[(0, &[Some(2)])]),
    (4, &[2], &[(0, &[None])]),
];

/// An array output of up to five records over three nodes.
const ARRAY: [UnitRow; 4] = [
    (4, &[5], &[(0, &[Some(1), Some(2), Some(3)])]),
    (8, &[], &[]),
    (8, &[], &[]),
    (8, &[], &[]),
];

/// Two outputs that share a budget of four.
const SHARED: [UnitRow; 3] = [
    (4, &[4], &[(0, &[Some(1)]), (0, &[Some(2)])]),
    (4, &[], &[]),
    (4, &[], &[]),
];

/// An array output of up to 256 of the largest records over nine nodes.
const LARGE: [UnitRow; 10] = [
    (
        4,
        &[256],
        &[(
            0,
            &[
                Some(1),
                Some(2),
                Some(3),
                Some(4),
                Some(5),
                Some(6),
                Some(7),
                Some(8),
                Some(9),
            ],
        )],
    ),
    (8192, &[], &[]),
    (8192, &[], &[]),
    (8192, &[], &[]),
    (8192, &[], &[]),
    (8192, &[], &[]),
    (8192, &[], &[]),
    (8192, &[], &[]),
    (8192, &[], &[]),
    (8192, &[], &[]),
];

#[test]
fn plans_the_greatest_need_of_each_unit(rt: HostRuntime) -> Result<(), Fail> {
    let alloc = rt.alloc();
    let rows: [(&[UnitRow], Option<u64>, u32, Planned); 6] = [
        (&CHAIN, None, 1, Ok((1, &[0, 2, 2], 16, 1024, 16))),
        (&CHAIN, Some(100), 1, Ok((6, &[0, 12, 12], 16, 1024, 96))),
        (
            &CHAIN,
            Some(15),
            1,
            Err(PlanFault::TooSmall {
                need: 16,
                given: 15,
            }),
        ),
        (&ARRAY, None, 1, Ok((1, &[0, 5, 5, 5], 120, 7680, 120))),
        (&SHARED, None, 1, Ok((1, &[0, 4, 4], 32, 2048, 32))),
        (
            &LARGE,
            None,
            64,
            Err(PlanFault::TooLarge {
                need: 1_207_959_552,
            }),
        ),
    ];
    for (units, bytes, width, want) in rows {
        let shape = shape(alloc, units)?;
        assert!(rt; is_small(&shape));
        assert!(rt; width >= 1 && width <= 64);
        match (plan(alloc, &shape, bytes, width), want) {
            (Ok(plan), Ok((width, slots, least, greatest, bytes))) => {
                assert_eq!(rt; plan.width, width);
                assert_eq!(rt; plan.slots.as_slice(), slots);
                assert_eq!(rt;
                    [plan.least, plan.greatest, plan.bytes],
                    [least, greatest, bytes]
                );
            }
            (Err(fault), Err(want)) => assert_eq!(rt; fault, want),
            _ => panic!(rt; "a plan in place of a fault, or the reverse"),
        }
    }
    Ok(())
}
