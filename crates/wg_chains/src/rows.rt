ghost use Rattle.std.specs.Prelude.{◌≡◌};
ghost use Rattle.wg_chains.specs.Rows.{flag as flag_of, leads as flag_at};

use wg_words::Items;

/// A flag for each node.
pub type Flags = Items<bool>;

/// A row of flags for each node: those of the nodes that it targets.
pub type Rows = Items<Flags>;

/// The flag of a number.
pub fn flag(row: &Flags, m: usize) -> bool
    ensures { result ≡ flag_of row.now m }
{
    match row.get(m) {
        Some(set) => *set,
        None => false,
    }
}

/// The flag of a number in the row of another.
pub fn leads(rows: &Rows, n: usize, m: usize) -> bool
    ensures { result ≡ flag_at rows.now n m }
{
    match rows.get(n) {
        Some(row) => flag(row, m),
        None => false,
    }
}
