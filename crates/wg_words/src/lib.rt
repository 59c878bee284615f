//! Words of 16, 32 and 64 bits, the limits, places in a text, and the list types of the project.
#![tactic(auto)]

mod arithmetic;
mod arithmetic_16;
mod arithmetic_64;
mod items;
pub mod limits;
mod place;

pub use arithmetic::{
    add, cmp_s, cmp_u, count_bits, div_s, div_u, first_high, first_low, mul, rem_s, rem_u, reverse,
    shl, shr_s, shr_u, sub,
};
pub use arithmetic_16::{
    add_16, cmp_s_16, cmp_u_16, div_s_16, div_u_16, mul_16, rem_s_16, rem_u_16, shl_16, shr_s_16,
    shr_u_16, sub_16,
};
pub use arithmetic_64::{
    add_64, cmp_s_64, cmp_u_64, div_s_64, div_u_64, mul_64, rem_s_64, rem_u_64, shl_64, shr_s_64,
    shr_u_64, sub_64,
};
pub use items::{Items, Name, Names, Numbers, TryCopy, Word, WordLists, Words};
pub use place::Place;

#[cfg(test)]
mod tests;
