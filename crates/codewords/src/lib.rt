// Codewords and their numbers: Spread and Gather.
#![tactic(auto)]

pub mod ranking;
pub mod unranking;

pub use ranking::rank;
pub use unranking::unrank;
