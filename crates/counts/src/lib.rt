// How many codewords a shape has, with the table of all counts that lead there.
#![tactic(auto)]

pub mod cells;
pub mod table;

pub use table::codeword_count;
