// What is written.
use super::streams::{Streams, write_all};
use refusal::{Refusal, outcome_code};
use std::io;
use std::io::Write;

pub fn outcome_is<T>(s: &mut Streams, answer: &Result<T, Refusal>) -> io::Result<()> {
    decimal(s, b": outcome ", u32::from(outcome_code(answer)))
}

pub fn decimal(s: &mut Streams, label: &[u8], n: u32) -> io::Result<()> {
    write_all(s, label)?;
    write!(s.output, "{n}")
}

// The words, least word first.
pub fn number_is(s: &mut Streams, words: &[u32]) -> io::Result<()> {
    write_all(s, b", number")?;
    for word in words {
        decimal(s, b" ", *word)?;
    }
    Ok(())
}

// Two digits for each byte.
pub fn hex(s: &mut Streams, label: &[u8], bytes: &[u8]) -> io::Result<()> {
    write_all(s, label)?;
    for byte in bytes {
        write!(s.output, "{byte:02x}")?;
    }
    Ok(())
}

// The line ends with what the slices hold.
pub fn slices(s: &mut Streams, table: &[u32], bytes: &[u8], text: &[u8]) -> io::Result<()> {
    sums(s, table)?;
    hex(s, b", bytes ", bytes)?;
    hex(s, b", text ", text)?;
    write_all(s, b"\n")
}

// The sum of all words, and the sum of the sums up to each, so that a word in another's place is seen.
fn sums(s: &mut Streams, words: &[u32]) -> io::Result<()> {
    let mut sum = 0u32;
    let mut all = 0u32;
    for word in words {
        sum = sum.wrapping_add(*word);
        all = all.wrapping_add(sum);
    }
    decimal(s, b", table ", sum)?;
    decimal(s, b" ", all)
}
