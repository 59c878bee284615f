ghost use Rattle.std.specs.Prelude.{◌≡◌, slice_get, option_map};
ghost use Rattle.std.specs.Option.{option_copied};
ghost use Rattle.wg_scope.specs.declared.scope.Entry.{Entry};
ghost use Rattle.wg_scope.specs.Latest.{known_at};
ghost use Rattle.wg_typing.specs.Scope.{constant_if, struct_if};

use sqlite_items::Items;
use std::alloc::{AllocError, Global};
use std::marker::Model;
use wg_text::NameMap;
use wg_tree::Named;
use wg_typed::{ConstValue, TypeTree};
use wg_typing::{Declared, Meant};
use wg_words::TryCopy;

/// A declared name, and where the one of its name stood before it.
#[derive(Drop)]
pub struct Entry {
    pub declared: Declared,
    pub earlier: Option<usize>,
}

/// Names in scope, from the first that was declared on. A look-up takes no longer where there are many.
#[derive(Drop)]
pub struct Scope {
    entries: Items<Entry>,
    latest: NameMap<Option<usize>>,
}

impl Model for Scope {
    ghost use Rattle.std.specs.Prelude.{List};
    ghost use Rattle.wg_typing.specs.declared.scope.Declared.{Declared};
    ghost use Rattle.wg_scope.specs.Latest.{declared_in, Agrees};
    ghost use Rattle.wg_typing.specs.contracts.scope.Declared.{the_row};
    ghost use Rattle.std.specs.Coded.{coded_list};

    ghost Value = { List Declared };

    ghost coded = { coded_list the_row.coded };

    ghost view = { λ s. declared_in s.entries };

    ghost invariant = { λ s. Agrees s.entries s.latest };
}

impl Scope {
    ghost use Rattle.std.specs.Prelude.{◌≡◌, ◌⊎◌, ◌++◌, [], ◌∷◌, length, map, take, drop, OnOk};
    ghost use Rattle.wg_typing.specs.declared.scope.Declared.{Declared};
    ghost use Rattle.std.specs.Option.{option_copied};
    ghost use Rattle.wg_typing.specs.Scope.{look, name_bytes, known_names, struct_if};
    ghost use Rattle.wg_typing.specs.Named.{is_among};

    pub fn new(alloc: Global) -> Scope
        ensures { result ≡ [] }
    {
        Scope {
            entries: Items::new(alloc),
            latest: NameMap::new(alloc),
        }
    }

    pub fn len(&self) -> usize
        ensures { result ≡ length self.now }
    {
        self.entries.len()
    }

    /// What the name stands for: of several the last one counts.
    pub fn look(&self, name: &[u8]) -> Option<&Meant>
        ensures { option_copied result ≡ look name.now self.now }
    {
        let at = known(&self.latest, name)?;
        meant_at(&self.entries, at)
    }

    /// Whether the name is declared in the own scope, which begins after so many names.
    pub fn declares(&self, start: usize, name: &[u8]) -> bool
        ensures { result ≡ is_among (map name_bytes (drop start self.now)) name.now }
    {
        match known(&self.latest, name) {
            Some(at) => start <= at,
            None => false,
        }
    }

    /// The value of a name that may stand in a `const`.
    pub fn constant(&self, name: &[u8]) -> Option<ConstValue>
        ensures { result ≡ known_names self.now name.now }
    {
        constant_in(self.look(name)?)
    }

    /// The type of a struct by its name.
    pub fn struct_type(&self, name: &[u8]) -> Option<TypeTree>
        ensures { result ≡ struct_if (look name.now self.now) }
    {
        struct_in(self.look(name)?)
    }

    /// One more name.
    pub fn declare(&mut self, alloc: Global, name: Named, meant: Meant) -> Result<(), AllocError>
        ensures { OnOk result (self.new ≡ self.old ++ record { name = name; meant = meant } ∷ []) }
    {
        let earlier = known(&self.latest, name.name.as_slice());
        let key = name.name.copy(alloc)?;
        let at = self.entries.len();
        self.entries.push(Entry {
            declared: Declared { name, meant },
            earlier,
        })?;
        match self.latest.insert(key.into_vec(), Some(at)) {
            Ok(()) => Ok(()),
            Err(e) => {
                *self = Scope::new(alloc);
                Err(e)
            }
        }
    }

    /// Forgets the last name.
    fn forget(&mut self, alloc: Global) -> Result<(), AllocError>
        ensures { OnOk result ((self.old ≡ []) ⊎ ((d : Declared) × (self.old ≡ self.new ++ d ∷ []))) }
    {
        let Some(entry) = self.entries.pop() else {
            return Ok(());
        };
        let earlier = entry.earlier;
        let key = key_of(entry);
        match self.latest.insert(key, earlier) {
            Ok(()) => Ok(()),
            Err(e) => {
                *self = Scope::new(alloc);
                Err(e)
            }
        }
    }

    /// Closes a scope: the names from the given one on are gone.
    pub fn close(&mut self, alloc: Global, count: usize) -> Result<(), AllocError>
        ensures { OnOk result (self.new ≡ take count self.old) }
    {
        while self.len() > count {
            self.forget(alloc)?;
        }
        Ok(())
    }
}

fn constant_in(meant: &Meant) -> Option<ConstValue>
    ensures { result ≡ constant_if (Some meant.now) }
{
    match meant {
        Meant::Constant { value, .. } => *value,
        Meant::Struct { .. }
        | Meant::Shared { .. }
        | Meant::Variable { .. }
        | Meant::Object { .. }
        | Meant::Function { .. }
        | Meant::Itself
        | Meant::Broken => None,
    }
}

fn struct_in(meant: &Meant) -> Option<TypeTree>
    ensures { result ≡ struct_if (Some meant.now) }
{
    match meant {
        Meant::Struct { number } => Some(TypeTree::Struct { number: *number }),
        Meant::Constant { .. }
        | Meant::Shared { .. }
        | Meant::Variable { .. }
        | Meant::Object { .. }
        | Meant::Function { .. }
        | Meant::Itself
        | Meant::Broken => None,
    }
}

fn key_of(entry: Entry) -> Vec<u8>
    ensures { result.items ≡ entry.declared.name.name }
{
    let Entry { declared, .. } = entry;
    let Declared { name, .. } = declared;
    name.name.into_vec()
}

fn known(latest: &NameMap<Option<usize>>, name: &[u8]) -> Option<usize>
    ensures { result ≡ known_at latest.now name.now }
{
    latest.get(name)?
}

fn meant_at(entries: &Items<Entry>, at: usize) -> Option<&Meant>
    ensures { option_copied result ≡ option_map (λ (e : Entry). e.declared.meant) (slice_get entries.now at) }
{
    let entry = entries.get(at)?;
    Some(&entry.declared.meant)
}
