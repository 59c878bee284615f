ghost use Rattle.std.specs.Prelude.{◌≡◌, ◌∷◌, ◌++◌, [], true, length, IfNone, IfSome, OnOk, OnErr};
ghost use Rattle.wg_tickets.specs.Held.{AllBelow, IsHeldAt, IsLeast, Takes, has_ticket};

use std::alloc::{AllocError, Global};
use std::collections::BTreeMap;
use std::marker::Model;

/// Values under tickets, in rising order of ticket.
#[derive(Drop)]
pub struct Tickets<T: Drop> {
    map: BTreeMap<u64, T>,
}

impl<T: Drop> Model for Tickets<T> {
    ghost use Rattle.std.specs.Prelude.{List, ℕ};

    ghost Value = { List (ℕ × T) };

    ghost view = { λ t. t.map.entries };
}

impl<T: Drop> Tickets<T> {
    pub fn new(alloc: Global) -> Self
        ensures { result ≡ [] }
    {
        Tickets {
            map: BTreeMap::new(alloc),
        }
    }

    pub fn len(&self) -> u64
        ensures { result ≡ length self.now }
    {
        self.map.len() as u64
    }

    /// The least ticket.
    pub fn first(&self) -> Option<u64>
        ensures some { IfSome result (IsLeast self.now) }
        ensures none { IfNone result (self.now ≡ []) }
    {
        let (ticket, _) = self.map.first_key_value()?;
        let ticket = *ticket;
        Some(ticket)
    }

    pub fn contains(&self, ticket: u64) -> bool
        ensures { result ≡ has_ticket ticket self.now }
    {
        self.map.contains_key(&ticket)
    }

    /// The value of a ticket.
    pub fn get(&self, ticket: u64) -> &T
        requires { has_ticket ticket self.now ≡ true }
        ensures { IsHeldAt self.now ticket result.now }
    {
        let Some(value) = self.map.get(&ticket) else {
            unreachable!();
        };
        value
    }

    /// Puts a value under a ticket above all others.
    pub fn push(&mut self, ticket: u64, value: T) -> Result<(), AllocError>
        requires { AllBelow ticket self.old }
        ensures ok { OnOk result (self.new ≡ self.old ++ (ticket, value) ∷ []) }
        ensures err { OnErr result (self.new ≡ self.old) }
    {
        self.map.insert(ticket, value)?;
        Ok(())
    }

    /// Takes out the value of a ticket. It takes no memory.
    pub fn remove(&mut self, ticket: u64) -> T
        requires { has_ticket ticket self.old ≡ true }
        ensures { Takes self.old self.new ticket result }
    {
        let Some(value) = self.map.remove(&ticket) else {
            unreachable!();
        };
        value
    }
}

#[cfg(test)]
mod tests {
    use super::*;
    use std::test::Fail;

    fn held(values: &Tickets<u32>, ticket: u64) -> Option<u32> {
        if !values.contains(ticket) {
            return None;
        }
        Some(*values.get(ticket))
    }

    fn taken(values: &mut Tickets<u32>, ticket: u64) -> Option<u32> {
        if !values.contains(ticket) {
            return None;
        }
        Some(values.remove(ticket))
    }

    #[test]
    fn a_value_is_held_until_it_is_taken(rt: HostRuntime) -> Result<(), Fail> {
        let mut values = Tickets::new(rt.alloc());
        values.push(3, 30)?;
        assert_eq!(rt; (values.first(), values.len()), (Some(3), 1));
        assert_eq!(rt; (held(&values, 3), held(&values, 4)), (Some(30), None));
        assert_eq!(rt; taken(&mut values, 3), Some(30));
        assert_eq!(rt; (values.first(), values.len()), (None, 0));
        Ok(())
    }
}
