// Write sheet: a signature and its text as the sheet that the reader takes.
#![tactic(auto)]

mod lines;
mod writer;

pub use writer::write_sheet;
