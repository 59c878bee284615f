ghost use Rattle.std.specs.Prelude.{◌≡◌, [], ◌∷◌, IfOk, OnOk};
ghost use Rattle.wg_typing.specs.Sites.{at_if};
ghost use Rattle.wg_notes.specs.Notes as n;

use std::alloc::{AllocError, Global};
use wg_typing::{Event, Fault};
use wg_words::{Items, Place};

/// What a walk writes down: a broken rule, or what happens.
#[derive(Drop)]
pub enum Note {
    Broken { fault: Fault },
    Happens { event: Event },
}

/// What was written down, in the order of the walk.
#[derive(Drop)]
pub struct Notes {
    pub alloc: Global,
    pub list: Items<Note>,
}

/// Nothing, or want of memory.
pub type Noted = Result<(), AllocError>;

/// What there is, or want of memory.
pub type Maybe<T> = Result<Option<T>, AllocError>;

/// A list, where all of it is there.
pub type All<T> = Option<Items<T>>;

/// One more, where all before are there.
pub fn more<T: Drop>(done: All<T>, item: Option<T>) -> Maybe<Items<T>>
    ensures { IfOk result (λ r. r ≡ n.more done item) }
{
    let (Some(mut done), Some(item)) = (done, item) else {
        return Ok(None);
    };
    done.push(item)?;
    Ok(Some(done))
}

impl Notes {
    pub fn new(alloc: Global) -> Notes
        ensures { result.list ≡ [] }
    {
        Notes {
            alloc,
            list: Items::new(alloc),
        }
    }

    /// A broken rule by its number.
    pub fn fault(&mut self, rule: u32, place: Place) -> Noted
        ensures { OnOk result (self.new.list ≡ n.with_faults rule (place ∷ []) self.old.list) }
    {
        let fault = Fault { rule, place };
        self.list.push(Note::Broken { fault })
    }

    pub fn fault_if(&mut self, broken: bool, rule: u32, place: Place) -> Noted
        ensures { OnOk result (self.new.list ≡ n.with_faults rule (at_if broken place) self.old.list) }
    {
        if broken {
            self.fault(rule, place)
        } else {
            Ok(())
        }
    }

    /// What happens.
    pub fn event(&mut self, event: Event) -> Noted
        ensures { OnOk result (self.new.list ≡ n.with_events (event ∷ []) self.old.list) }
    {
        self.list.push(Note::Happens { event })
    }
}
