// Numbers in five words, least word first: sums, differences, Compare, and powers of two.
#![tactic(auto)]

pub mod limbs;
pub mod number;
pub mod powers;
