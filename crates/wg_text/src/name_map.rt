use std::alloc::{AllocError, Global};
use std::collections::HashMap;
use std::marker::Model;

/// Values by names. A look-up takes no longer where there are many.
#[derive(Drop)]
pub struct NameMap<X> {
    by_name: HashMap<Vec<u8>, X>,
}

impl<X> Model for NameMap<X> {
    ghost use Rattle.std.specs.Prelude.{ℕ, List};
    ghost use Rattle.wg_text.specs.Names.{by_names};

    ghost Value = { List (List ℕ × X) };

    ghost view = { λ m. by_names m.by_name.entries };
}

impl<X: Copy + Drop> NameMap<X> {
    ghost use Rattle.std.specs.Prelude.{◌≡◌, ℕ, List, [], Some, if◌then◌else◌, OnOk, OnErr};
    ghost use Rattle.std.specs.Str.{bytes_eq};
    ghost use Rattle.wg_text.specs.Names.{found_in};

    pub fn new(alloc: Global) -> NameMap<X>
        ensures { result ≡ [] }
    {
        NameMap {
            by_name: HashMap::new(alloc),
        }
    }

    /// One more name. Of two equal ones the later counts.
    pub fn insert(&mut self, name: Vec<u8>, value: X) -> Result<(), AllocError>
        ensures ok { OnOk result ((other : List ℕ) → found_in self.new other ≡ (if bytes_eq name.items other then Some value else found_in self.old other)) }
        ensures err { OnErr result (self.new ≡ self.old) }
    {
        self.by_name.insert(name, value)?;
        Ok(())
    }

    /// The value of a name.
    pub fn get(&self, name: &[u8]) -> Option<X>
        ensures { result ≡ found_in self.now name.now }
    {
        self.by_name.get(name).copied()
    }
}
