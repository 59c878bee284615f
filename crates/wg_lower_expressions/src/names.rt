ghost use Rattle.std.specs.Prelude.{◌≡◌, IfOk};
ghost use Rattle.wg_lowered.specs.Where.{base_of, size, total};
ghost use Rattle.wg_lower_expressions.specs.Begins.{begins};

use std::alloc::{AllocError, Global};
use std::marker::Model;
use wg_emit::forward;
use wg_typed::TypeTree;
use wg_values::Structs;
use wg_words::Words;

/// The words of each variable of one kind, and where each begins, where all stand one after another.
#[derive(Drop)]
pub struct Variables {
    sizes: Words,
    starts: Words,
    end: u32,
}

impl Model for Variables {
    ghost use Rattle.std.specs.Prelude.{List, ℕ, ◌≡◌};
    ghost use Rattle.wg_lowered.specs.Where.{total};
    ghost use Rattle.wg_lower_expressions.specs.Begins.{begins};

    ghost Value = { List ℕ };

    ghost view = { λ v. v.sizes };

    ghost invariant = { λ v. (v.starts ≡ begins 0 v.sizes) × (v.end ≡ total v.sizes) };
}

/// Where each of some variables begins, and where the last ends.
fn lay_out(alloc: Global, sizes: &Words) -> Result<(Words, u32), AllocError>
    ensures { IfOk result (λ p. (p.0 ≡ begins 0 sizes.now) × (p.1 ≡ total sizes.now)) }
{
    let mut list = Words::new(alloc);
    let mut at = 0;
    for size in sizes.as_slice() {
        list.push(at)?;
        at = forward(at, u64::from(*size))?;
    }
    Ok((list, at))
}

impl Variables {
    /// Variables of so many words each.
    pub fn new(alloc: Global, sizes: Words) -> Result<Variables, AllocError>
        ensures { IfOk result (λ v. v ≡ sizes) }
    {
        let (starts, end) = lay_out(alloc, &sizes)?;
        Ok(Variables { sizes, starts, end })
    }

    #[tactic(auto, using(crate::proofs::Bases::begin_of, crate::proofs::Bases::begin_past, crate::proofs::Bases::as_many))]
    /// Where a variable begins; the end of all for one that is not there.
    pub fn begin(&self, variable: u32) -> u32
        ensures { result ≡ base_of self.now variable }
    {
        let starts = self.starts.as_slice();
        if (variable as usize) < starts.len() {
            starts[variable as usize]
        } else {
            self.end
        }
    }

    /// Where the last ends.
    pub fn end(&self) -> u32
        ensures { result ≡ total self.now }
    {
        self.end
    }
}

/// What an expression's code knows of the text: its structs, the variables of the function, and the groupshared ones.
#[derive(Drop)]
pub struct Names<'a> {
    pub alloc: Global,
    pub structs: &'a Structs<'a>,
    pub variables: &'a Variables,
    pub shared: &'a Variables,
}

impl<'a> Model for Names<'a> {
    ghost use Rattle.wg_lowered.specs.Where.{Names as Known};

    ghost Value = { Known };

    ghost view = { λ n. record { structs = n.structs.now; variables = n.variables.now; shared = n.shared.now } };
}

impl<'a> Names<'a> {
    /// How many words a value of a type has. There is no memory for 2^32.
    pub fn size(&self, t: TypeTree) -> Result<u32, AllocError>
        ensures { IfOk result (λ n. n ≡ size self.now t) }
    {
        let words = self.structs.words(t)?;
        match u32::try_from(words) {
            Ok(words) => Ok(words),
            Err(_) => Err(AllocError),
        }
    }
}
