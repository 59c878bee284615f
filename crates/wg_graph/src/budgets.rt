//! The budgets of a node (DirectX-Specs, Work Graphs, "MaxRecords").
ghost use Rattle.std.specs.Prelude.{◌≡◌, IfOk};
ghost use Rattle.wg_shapes.specs.ShapeOf as s;

use std::alloc::{AllocError, Global};
use wg_node_attributes::OutputAttr;
use wg_words::Words;

/// One more than the greatest number of a budget.
fn budget_count(outputs: &[OutputAttr]) -> u64
    ensures { result ≡ s.budget_count outputs.now }
{
    let mut count = 0;
    for o in outputs {
        count = count.max(u64::from(o.budget) + 1);
    }
    count
}

/// The `MaxRecords` of a budget.
fn most_of(outputs: &[OutputAttr], budget: u64) -> u32
    ensures { result ≡ s.most_of outputs.now budget }
{
    for o in outputs {
        if u64::from(o.budget) == budget {
            return o.most;
        }
    }
    0
}

/// The `MaxRecords` of each budget.
pub fn budgets_of(alloc: Global, outputs: &[OutputAttr]) -> Result<Words, AllocError>
    ensures { IfOk result (λ budgets. budgets ≡ s.budgets_of outputs.now) }
{
    let count = budget_count(outputs);
    let mut budgets = Words::new(alloc);
    for budget in 0..count {
        budgets.push(most_of(outputs, budget))?;
    }
    Ok(budgets)
}
