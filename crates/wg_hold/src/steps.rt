ghost use Rattle.std.specs.Prelude.{◌≡◌, ◌≢◌, IfOk, filter};
ghost use Rattle.wg_words.specs.Each.{Each};
ghost use Rattle.wg_store.specs.Items.{CanOpen, all_opened};
ghost use Rattle.wg_hold.specs.Held.{AreApart};
ghost use Rattle.wg_hold.specs.Parts.{slots_in};

use crate::rows::Rows;
use std::alloc::AllocError;

/// Opens one more group of each of the records that have these numbers.
pub fn open_all(rows: &mut Rows, numbers: &[u64])
    requires apart { AreApart numbers.now }
    requires can { Each (CanOpen numbers.now) rows.old.items }
    ensures { rows.new ≡ record rows.old { items = all_opened numbers.now rows.old.items } }
{
    for number in numbers {
        rows.open(*number);
    }
}

#[tactic(auto, using(crate::proofs::Bytes::slots_next, crate::proofs::Bytes::slots_all))]
/// How many slots there are. More than a place can name are more than there is memory for.
pub fn total(counts: &[u32]) -> Result<usize, AllocError>
    ensures { IfOk result (λ total. total ≡ slots_in counts.now) }
{
    let mut total: usize = 0;
    for count in counts {
        total = total.checked_add(*count as usize).ok_or(AllocError)?;
    }
    Ok(total)
}
