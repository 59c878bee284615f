ghost use Rattle.std.specs.Prelude.{◌≡◌};
ghost use Rattle.wg_machine.specs.Units.{kind_at, most_inputs, shared_at, stride_at};

use crate::shape::{Kind, Shape};

impl Shape {
    /// The kind of a unit, thread launch where there is no such unit.
    pub fn kind(&self, unit: u32) -> Kind
        ensures { result ≡ kind_at self.now unit }
    {
        match self.units.get(unit as usize) {
            Some(node) => node.kind,
            None => Kind::Thread,
        }
    }

    /// Whether the groups of a record of the unit share its words.
    pub fn is_shared(&self, unit: u32) -> bool
        ensures { result ≡ shared_at self.now unit }
    {
        match self.units.get(unit as usize) {
            Some(node) => node.shared,
            None => false,
        }
    }

    /// The bytes of a record of the unit.
    pub fn stride(&self, unit: u32) -> u32
        ensures { result ≡ stride_at self.now unit }
    {
        match self.units.get(unit as usize) {
            Some(node) => node.stride,
            None => 0,
        }
    }
}

impl Kind {
    /// How many records one launch may take (Work Graphs, "Coalescing launch nodes").
    pub fn most_inputs(self) -> u32
        ensures { result ≡ most_inputs self }
    {
        match self {
            Kind::Coalescing { most } => most,
            _ => 1,
        }
    }
}
