// The stored key (document 02, point 5): one frame of kind 07, written and read.
#![tactic(auto)]

mod fields;
mod reader;
mod writer;

pub use reader::read_key;
pub use writer::write_key;
