ghost use Rattle.std.specs.Prelude.{◌≡◌, ◌||◌, ◌++◌, [], ◌∷◌, List, is_some, IfOk, OnOk};
ghost use Rattle.wg_text.specs.Names.{found_in};
ghost use Rattle.wg_typed.specs.declared.typed_stmt.TypedAttribute.{TypedAttribute as OfAttribute};
ghost use Rattle.wg_typing.specs.AttributeNames.{standing};
ghost use Rattle.wg_typing.specs.AttributeSites.{Position};
ghost use Rattle.wg_typing.specs.AttributeTwice.{clashes, rival_names};
ghost use Rattle.wg_typing.specs.declared.attribute.AttributeName.{AttributeName};
ghost use Rattle.std.specs.Prelude.{Option};
ghost use Rattle.std.specs.List.{list_any};
ghost use Rattle.wg_attribute_rules.specs.Before.{Keeps, rival_stood};

use std::alloc::{AllocError, Global};
use wg_attribute_arguments::small_letters;
use wg_text::NameMap;
use wg_typed::TypedAttribute;
use wg_typing::{AttributeName, what_stood_before_says};

/// Which grids and bounds stood before.
#[derive(Clone, Copy)]
pub struct Stood {
    pub grid: bool,
    pub max_grid: bool,
    pub bound: bool,
    pub shared_bound: bool,
}

/// What is kept of the attributes before one: their names in small letters, and which grids and bounds stood.
#[derive(Drop)]
pub struct Before {
    pub names: NameMap<()>,
    pub stood: Stood,
}

impl Stood {
    /// Whether a rival of the attribute stood.
    fn has_rival(self, name: Option<AttributeName>) -> bool
        ensures { result ≡ rival_stood self name }
    {
        match name {
            Some(AttributeName::DispatchGrid) => self.max_grid,
            Some(AttributeName::MaxDispatchGrid) => self.grid,
            Some(AttributeName::MaxRecords) => self.shared_bound,
            Some(AttributeName::MaxRecordsSharedWith) => self.bound,
            _ => false,
        }
    }

    fn and(self, name: Option<AttributeName>) -> Stood
        ensures { (other : Option AttributeName) → rival_stood result other ≡ (rival_stood self other || rival_names name other) }
    {
        Stood {
            grid: self.grid | matches!(name, Some(AttributeName::DispatchGrid)),
            max_grid: self.max_grid | matches!(name, Some(AttributeName::MaxDispatchGrid)),
            bound: self.bound | matches!(name, Some(AttributeName::MaxRecords)),
            shared_bound: self.shared_bound
                | matches!(name, Some(AttributeName::MaxRecordsSharedWith)),
        }
    }
}

impl Before {
    /// What is kept of no attributes.
    pub fn new(alloc: Global) -> Before
        ensures { (position : Position) → Keeps position [] result }
    {
        Before {
            names: NameMap::new(alloc),
            stood: Stood {
                grid: false,
                max_grid: false,
                bound: false,
                shared_bound: false,
            },
        }
    }

    /// Whether an attribute that stands so clashes with one before it; it is one of those before, from here on.
    pub fn take(
        &mut self,
        alloc: Global,
        a: &TypedAttribute,
        name: Option<AttributeName>,
    ) -> Result<bool, AllocError>
        ensures clashes { IfOk result (λ r. (position : Position) (before : List OfAttribute) → Keeps position before self.old → name ≡ standing position a.now → r ≡ list_any (clashes position a.now) before) }
        ensures keeps { OnOk result ((position : Position) (before : List OfAttribute) → Keeps position before self.old → name ≡ standing position a.now → Keeps position (before ++ a.now ∷ []) self.new) }
    {
        what_stood_before_says();
        let small = small_letters(alloc, &a.name.name)?;
        let twice = self.names.get(small.as_slice()).is_some() | self.stood.has_rival(name);
        self.names.insert(small, ())?;
        self.stood = self.stood.and(name);
        Ok(twice)
    }
}
