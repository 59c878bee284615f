ghost use Rattle.std.specs.Prelude.{◌≡◌, IfOk};
ghost use Rattle.wg_semantics.specs.FunctionMeaning.{callees_of};
ghost use Rattle.wg_semantics.specs.ExprMeaning.{seen, word_of};
ghost use Rattle.wg_semantics.specs.StmtMeaning.{body_does};
ghost use Rattle.wg_values.specs.Pieces.{setting_of};
ghost use Rattle.wg_meaning.specs.Reach.{reach_of};
ghost use Rattle.wg_evaluation.specs.Says.{Runs};

use crate::functions::numbered;
use crate::stmt::block;
use sqlite_items::Boxed;
use std::alloc::{AllocError, Global};
use wg_evaluation::{Calls, Run, word};
use wg_machine::Halt;
use wg_semantics::Flow;
use wg_typed::{TypedExpr, TypedStmt};
use wg_values::Setting;
use wg_words::{Word, WordLists, Words};

/// How deep calls may nest.
#[derive(Drop)]
pub enum Depth {
    None,
    Below(Boxed<Depth>),
}

impl Calls for Depth {
    ghost reach = { reach_of };

    fn reaches(&self, function: u32) -> bool {
        match self {
            Depth::None => false,
            Depth::Below(depth) => function == 0 || depth.get().reaches(function - 1),
        }
    }

    #[cycle(nest)]
    fn call(
        &self,
        setting: &Setting<'_>,
        function: u32,
        values: WordLists,
        run: &mut Run,
    ) -> Result<(Words, WordLists), Halt> {
        match self {
            Depth::None => Ok((Words::new(setting.alloc), WordLists::new(setting.alloc))),
            Depth::Below(depth) => numbered(setting, depth.get(), function, values, run),
        }
    }
}

/// As deep as there are functions.
fn depth_of(alloc: Global, count: usize) -> Result<Depth, AllocError>
    ensures { IfOk result (λ depth. reach_of depth ≡ count) }
{
    let mut depth = Depth::None;
    for _i in 0..count {
        depth = Depth::Below(Boxed::new(alloc, depth)?);
    }
    Ok(depth)
}

/// The word of a test in a function that may call those before it.
pub fn test(setting: &Setting<'_>, e: &TypedExpr, run: &mut Run) -> Result<Word, Halt>
    ensures { Runs (word_of (setting_of setting.now) (seen (setting_of setting.now) (callees_of (setting_of setting.now) setting.now.earlier.now) e.now)) run.old result run.new }
{
    let depth = depth_of(setting.alloc, setting.earlier.len())?;
    word(setting, &depth, e, run)
}

/// Runs statements of a function that may call those before it.
pub fn body(setting: &Setting<'_>, body: &[TypedStmt], run: &mut Run) -> Result<Flow, Halt>
    ensures { Runs (body_does (setting_of setting.now) (callees_of (setting_of setting.now) setting.now.earlier.now) body.now) run.old result run.new }
{
    let depth = depth_of(setting.alloc, setting.earlier.len())?;
    block(setting, &depth, body, run)
}
