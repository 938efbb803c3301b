// FIPS 180-4: the functions, the constants and the compression of one block of SHA-256.
#![tactic(auto)]

pub mod compression;
mod functions;

pub use compression::{HashWords, compress, initial};
