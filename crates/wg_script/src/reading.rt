ghost use Rattle.std.specs.Prelude.{◌≡◌, ◌≢◌, ◌<◌, ◌^◌, length, IfOk, Err};
ghost use Rattle.wg_machine.specs.GoodShape.{IsGoodShape};
ghost use Rattle.wg_script.specs.declared.script.ScriptFault.{ScriptFault as ScriptFaultOf};
ghost use Rattle.wg_script.specs.declared.script.ScriptFault.TheVariants.{Memory};
ghost use Rattle.wg_script.specs.Fit.{IsFit};
ghost use Rattle.wg_script.specs.Lines.{all_said, said_of};
ghost use Rattle.wg_script.specs.Names.{NamesShape};
ghost use Rattle.wg_script.specs.Reading.{Adds, line_added};
ghost use Rattle.wg_script.specs.Rules.{AreGood, IsFirstFault};
ghost use Rattle.wg_script.specs.Script.{IsScript};
ghost use Rattle.wg_script.specs.Words.{lines_of};

use crate::draft::Draft;
use crate::fields::Lines;
use crate::lines::{line_of, title};
use crate::names::ScriptNames;
use crate::numbers::Version;
use crate::{Script, ScriptFault};
use std::alloc::Global;
use wg_machine::{Shape, few_units};
use wg_text::Refusal;

/// Takes a line after the first into a draft. After an error the draft is only dropped.
fn add_line(
    alloc: Global,
    shape: &Shape,
    names: &ScriptNames,
    draft: &mut Draft,
    version: Version,
    text: &[u8],
    line: u64,
) -> Result<(), ScriptFault>
    requires { NamesShape shape.now names.now }
    ensures { Adds result draft.new (line_added shape.now line draft.old (said_of version text.now)) }
{
    match line_of(alloc, version, text) {
        Ok(said) => draft.add(alloc, shape, names, said, line),
        Err(Refusal::Form) => Err(ScriptFault::Form { line }),
        Err(Refusal::Memory) => Err(ScriptFault::Memory),
    }
}

/// The script that a text gives for a shape, or its first fault.
pub fn read_script(alloc: Global, text: &[u8], shape: &Shape) -> Result<Script, ScriptFault>
    requires { IsGoodShape shape.now }

    // No line breaks a rule.
    ensures good { IfOk result (λ _. AreGood shape.now (lines_of text.now)) }

    // The script is the one that the lines give.
    ensures script { IfOk result (IsScript shape.now (all_said (lines_of text.now))) }

    // What the machine asks of entry records and of buffers.
    ensures fit { IfOk result (IsFit shape.now) }

    // A text whose lines break no rule is read, unless memory runs out.
    ensures only { AreGood shape.now (lines_of text.now) → (fault : ScriptFaultOf) → result ≡ Err fault → fault ≡ Memory }

    // Which line breaks a rule first, and which rule.
    ensures fault { (fault : ScriptFaultOf) → result ≡ Err fault → fault ≢ Memory → IsFirstFault shape.now text.now fault }
{
    few_units();
    let names = ScriptNames::new(alloc, shape)?;
    let mut draft = Draft::new(alloc, shape.buffers.len())?;
    let mut lines = Lines::new(text);
    let Some(first) = lines.next() else {
        return Err(ScriptFault::Form { line: 1 });
    };
    let Some(version) = title(first) else {
        return Err(ScriptFault::Form { line: 1 });
    };
    let mut number = 1u64;
    while let Some(line) = lines.next() {
        number += 1;
        add_line(alloc, shape, &names, &mut draft, version, line, number)?;
    }
    Ok(draft.finish(alloc)?)
}
