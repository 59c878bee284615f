ghost use Rattle.std.specs.Prelude.{◌≡◌, IfOk, length};

use super::*;
use std::test::Fail;
use wg_machine::{Kind, NodeNames, Output, Outputs, Targets, Units};
use wg_words::{Names, Words};

/// An output's budget and its elements' targets.
type OutputRow = (u32, &'static [Option<u32>]);

fn unit(alloc: Global, budgets: &[u32], rows: &[OutputRow]) -> Result<Unit, AllocError> {
    let mut outputs = Outputs::new(alloc);
    for (budget, elements) in rows {
        outputs.push(Output {
            budget: *budget,
            words: 0,
            elements: Targets::from_slice(alloc, elements)?,
        })?;
    }
    Ok(Unit {
        node: 0,
        level: 0,
        depth: 1,
        words: 0,
        stride: 4,
        kind: Kind::Thread,
        entry: false,
        budgets: Words::from_slice(alloc, budgets)?,
        outputs,
        bools: Words::new(alloc),
        shared: false,
    })
}

/// Three units, of which the first sends through the given outputs.
fn shape(alloc: Global, budgets: &[u32], rows: &[OutputRow]) -> Result<Shape, AllocError>
    ensures { IfOk result (λ shape. length shape.units ≡ 3) }
{
    let sender = unit(alloc, budgets, rows)?;
    let one = unit(alloc, &[], &[])?;
    let other = unit(alloc, &[], &[])?;
    Ok(Shape {
        nodes: NodeNames::new(alloc),
        units: Units::from_vec(vec![in alloc; sender, one, other]?),
        buffers: Names::new(alloc),
    })
}

/// The budgets and outputs of a unit, and the units to which it may send records, with how many.
type NeedRow = (&'static [u32], &'static [OutputRow], &'static [(u32, u128)]);

const ROWS: [NeedRow; 5] = [
    (&[5], &[(0, &[Some(1), Some(2), None])], &[(1, 5), (2, 5)]),
    (&[4], &[(0, &[Some(1)]), (0, &[Some(1)])], &[(1, 4)]),
    (
        &[4_294_967_295, 1],
        &[(0, &[Some(2)]), (1, &[Some(2)])],
        &[(2, 4_294_967_296)],
    ),
    (&[3, 7], &[(0, &[None]), (2, &[Some(1)])], &[]),
    (
        &[0, 5, 2],
        &[
            (2, &[Some(1)]),
            (0, &[Some(2)]),
            (1, &[Some(2), Some(1)]),
            (2, &[Some(1)]),
        ],
        &[(2, 5), (1, 7)],
    ),
];

#[test]
fn a_budget_counts_once_for_each_unit_that_it_reaches(rt: HostRuntime) -> Result<(), Fail> {
    for (budgets, outputs, want) in ROWS {
        let table = needs_of(rt.alloc(), &shape(rt.alloc(), budgets, outputs)?)?;
        assert_eq!(rt; table.len(), 3);
        let mut have = Vec::new(rt.alloc());
        for row in 0..table.len() {
            for need in table.row(row) {
                have.push((need.unit, need.records))?;
            }
        }
        assert_eq!(rt; have.as_slice(), want);
    }
    Ok(())
}
