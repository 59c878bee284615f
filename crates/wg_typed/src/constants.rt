use crate::types::ConstValue;
use std::alloc::{AllocError, Global};
use std::collections::HashMap;
use std::marker::Model;
use wg_words::Name;

/// The values of constants by their names. A look-up takes no longer where there are many.
#[derive(Drop)]
pub struct Constants {
    by_name: HashMap<Vec<u8>, ConstValue>,
}

impl Model for Constants {
    ghost use Rattle.std.specs.Prelude.{ℕ, List};
    ghost use Rattle.wg_typed.specs.declared.types.ConstValue.{ConstValue};
    ghost use Rattle.wg_typed.specs.Constants.{named_values};

    ghost Value = { List (List ℕ × ConstValue) };

    ghost view = { λ c. named_values c.by_name.entries };
}

impl Constants {
    ghost use Rattle.std.specs.Prelude.{◌≡◌, ℕ, List, [], OnOk, OnErr};
    ghost use Rattle.wg_typed.specs.Constants.{known_in, with_value};

    pub fn new(alloc: Global) -> Constants
        ensures { result ≡ [] }
    {
        Constants {
            by_name: HashMap::new(alloc),
        }
    }

    /// One more constant. Of two of one name the later counts.
    pub fn add(&mut self, name: Name, value: ConstValue) -> Result<(), AllocError>
        ensures ok { OnOk result ((other : List ℕ) → known_in self.new other ≡ with_value (known_in self.old) name value other) }
        ensures err { OnErr result (self.new ≡ self.old) }
    {
        self.by_name.insert(name.into_vec(), value)?;
        Ok(())
    }

    /// The value of a name.
    pub fn get(&self, name: &[u8]) -> Option<ConstValue>
        ensures { result ≡ known_in self.now name.now }
    {
        self.by_name.get(name).copied()
    }
}
