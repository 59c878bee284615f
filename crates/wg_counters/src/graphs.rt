ghost use Rattle.std.specs.Prelude.{◌≡◌, IfOk, [], ◌∷◌, Some, codes};
ghost use Rattle.wg_counters.specs.Graphs.{bundle_unit, one_output, sheet_unit, sheets_shape, split_unit, splits_shape};
ghost use Rattle.wg_machine.specs.GoodShape.{IsGoodShape};

use std::alloc::{AllocError, Global};
use wg_machine::{Kind, NodeName, NodeNames, Output, Outputs, Shape, Targets, Unit, Units};
use wg_words::{Name, Names, Words};

/// One output of one element, on the first budget.
fn one_output_of(alloc: Global, target: Option<u32>, words: u32) -> Result<Outputs, AllocError>
    ensures { IfOk result (λ outputs. outputs ≡ one_output target words) }
{
    let elements = Targets::from_slice(alloc, &[target])?;
    let mut outputs = Outputs::new(alloc);
    outputs.push(Output {
        budget: 0,
        words,
        elements,
    })?;
    Ok(outputs)
}

fn node_named(alloc: Global, name: &[u8]) -> Result<NodeName, AllocError>
    ensures { IfOk result (λ node. node ≡ record { name = name.now; index = 0 }) }
{
    Ok(NodeName {
        name: Name::from_slice(alloc, name)?,
        index: 0,
    })
}

fn split_level(
    alloc: Global,
    level: u32,
    depth: u32,
    entry: bool,
    target: Option<u32>,
) -> Result<Unit, AllocError>
    ensures { IfOk result (λ unit. unit ≡ split_unit level depth entry target) }
{
    Ok(Unit {
        node: 0,
        level,
        depth,
        words: 1,
        stride: 4,
        kind: Kind::Thread,
        entry,
        budgets: Words::from_slice(alloc, &[2])?,
        outputs: one_output_of(alloc, target, 1)?,
        bools: Words::new(alloc),
        shared: false,
    })
}

fn sheet(alloc: Global) -> Result<Unit, AllocError>
    ensures { IfOk result (λ unit. unit ≡ sheet_unit) }
{
    Ok(Unit {
        node: 0,
        level: 0,
        depth: 1,
        words: 2,
        stride: 8,
        kind: Kind::GridField {
            first: 0,
            parts: 2,
            x: 4096,
            y: 4095,
            z: 1,
        },
        entry: true,
        budgets: Words::from_slice(alloc, &[1])?,
        outputs: one_output_of(alloc, Some(1), 2)?,
        bools: Words::new(alloc),
        shared: true,
    })
}

fn bundle(alloc: Global) -> Unit
    ensures { result ≡ bundle_unit }
{
    Unit {
        node: 1,
        level: 0,
        depth: 2,
        words: 2,
        stride: 8,
        kind: Kind::Coalescing { most: 4 },
        entry: true,
        budgets: Words::new(alloc),
        outputs: Outputs::new(alloc),
        bools: Words::new(alloc),
        shared: false,
    }
}

fn splits_made(alloc: Global) -> Result<Shape, AllocError>
    ensures { IfOk result (λ shape. shape ≡ splits_shape) }
{
    let mut nodes = NodeNames::new(alloc);
    nodes.push(node_named(alloc, b"Split")?)?;
    let mut units = Units::new(alloc);
    units.push(split_level(alloc, 2, 1, true, Some(1))?)?;
    units.push(split_level(alloc, 1, 2, false, Some(2))?)?;
    units.push(split_level(alloc, 0, 3, false, None)?)?;
    Ok(Shape {
        nodes,
        units,
        buffers: Names::new(alloc),
    })
}

fn sheets_made(alloc: Global) -> Result<Shape, AllocError>
    ensures { IfOk result (λ shape. shape ≡ sheets_shape) }
{
    let mut nodes = NodeNames::new(alloc);
    nodes.push(node_named(alloc, b"Sheet")?)?;
    nodes.push(node_named(alloc, b"Bundle")?)?;
    let mut units = Units::new(alloc);
    units.push(sheet(alloc)?)?;
    units.push(bundle(alloc))?;
    let mut buffers = Names::new(alloc);
    buffers.push(Name::from_slice(alloc, b"Count")?)?;
    buffers.push(Name::from_slice(alloc, b"Rest")?)?;
    Ok(Shape {
        nodes,
        units,
        buffers,
    })
}

/// A thread node at the levels 2, 1 and 0 that sends two records to the level below, without buffers.
pub fn splits(alloc: Global) -> Result<Shape, AllocError>
    ensures shape { IfOk result (λ shape. shape ≡ splits_shape) }
    ensures good { IfOk result IsGoodShape }
{
    let shape = splits_made(alloc)?;
    Ok(shape)
}

/// A broadcasting node whose groups share their record and whose last group sends one record to a coalescing node of at
/// most four, with two buffers. A record's two words are its grid.
pub fn sheets(alloc: Global) -> Result<Shape, AllocError>
    ensures shape { IfOk result (λ shape. shape ≡ sheets_shape) }
    ensures good { IfOk result IsGoodShape }
{
    let shape = sheets_made(alloc)?;
    Ok(shape)
}
