ghost use Rattle.std.specs.Prelude.{◌≡◌, IfOk};
ghost use Rattle.wg_machine.specs.GoodShape.{IsGoodShape};
ghost use Rattle.wg_journal.specs.Names.{unit_in, NamesUnits};

use crate::write::push_unit;
use std::alloc::{AllocError, Global};
use wg_machine::{Shape, few_units};
use wg_text::NameMap;

/// The units of a shape by their texts.
#[derive(Drop)]
pub struct UnitNames {
    by_text: NameMap<u32>,
}

impl UnitNames {
    pub fn new(alloc: Global, shape: &Shape) -> Result<UnitNames, AllocError>
        requires { IsGoodShape shape.now }
        ensures { IfOk result (λ names. NamesUnits shape.now (unit_in names)) }
    {
        few_units();
        let mut by_text = NameMap::new(alloc);
        for (number, _) in shape.units.as_slice().iter().enumerate() {
            let number = number as u32;
            let mut text = Vec::new(alloc);
            push_unit(alloc, &mut text, shape, number)?;
            by_text.insert(text, number)?;
        }
        Ok(UnitNames { by_text })
    }

    /// The unit that a text names.
    pub fn find(&self, text: &[u8]) -> Option<u32>
        ensures { result ≡ unit_in self.now text.now }
    {
        self.by_text.get(text)
    }
}
