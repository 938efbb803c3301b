// SHA-256 as a running hash.
#![tactic(auto)]

mod running;

pub use running::{Added, Hash};
