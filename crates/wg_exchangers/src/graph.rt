ghost use Rattle.std.specs.Prelude.{◌≡◌, ℕ, false, IfOk};
ghost use Rattle.wg_exchangers.specs.Graph.{form_unit, forms_shape, one_launch};
ghost use Rattle.wg_machine.specs.GoodShape.{IsGoodShape};
ghost use Rattle.wg_machine.specs.LaunchMeaning.{FitsShape};
ghost use Rattle.wg_machine.specs.Units.{shared_at};

use std::alloc::{AllocError, Global};
use wg_machine::{Kind, Launch, NodeName, NodeNames, Outputs, Record, Records, Shape, Unit, Units};
use wg_words::{Name, Names, Word, Words};

fn node(alloc: Global) -> Unit
    ensures { result ≡ form_unit }
{
    Unit {
        node: 0,
        level: 0,
        depth: 1,
        words: 1,
        stride: 4,
        kind: Kind::Thread,
        entry: true,
        budgets: Words::new(alloc),
        outputs: Outputs::new(alloc),
        bools: Words::new(alloc),
        shared: false,
    }
}

fn forms_made(alloc: Global) -> Result<Shape, AllocError>
    ensures { IfOk result (λ shape. shape ≡ forms_shape) }
{
    let name = Name::from_slice(alloc, b"Form")?;
    let mut nodes = NodeNames::new(alloc);
    nodes.push(NodeName { name, index: 0 })?;
    let mut units = Units::new(alloc);
    units.push(node(alloc))?;
    let mut buffers = Names::new(alloc);
    buffers.push(Name::from_slice(alloc, b"Words")?)?;
    buffers.push(Name::from_slice(alloc, b"Told")?)?;
    Ok(Shape {
        nodes,
        units,
        buffers,
    })
}

/// A thread node whose records have one word, and two buffers.
pub fn forms(alloc: Global) -> Result<Shape, AllocError>
    ensures shape { IfOk result (λ shape. shape ≡ forms_shape) }
    ensures good { IfOk result IsGoodShape }
    ensures none_shared { IfOk result (λ shape. (u : ℕ) → shared_at shape u ≡ false) }
{
    let shape = forms_made(alloc)?;
    Ok(shape)
}

fn launch_made(alloc: Global, word: Word) -> Result<Launch, AllocError>
    ensures { IfOk result (λ launch. launch ≡ one_launch word) }
{
    let words = Words::from_slice(alloc, &[word])?;
    let mut records = Records::new(alloc);
    records.push(Record { number: 0, words })?;
    Ok(Launch {
        unit: 0,
        records,
        group: 0,
        grid: [1, 1, 1],
        last: false,
    })
}

/// A launch of the node with a record of this word.
pub fn form_launch(alloc: Global, word: Word) -> Result<Launch, AllocError>
    ensures launch { IfOk result (λ launch. launch ≡ one_launch word) }
    ensures fits { IfOk result (FitsShape forms_shape) }
{
    let launch = launch_made(alloc, word)?;
    Ok(launch)
}
