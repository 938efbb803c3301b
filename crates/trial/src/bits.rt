// The bits of an order's number, for counts that no profile has, and the first bits of any digest.
use super::input::{length, number};
use super::output::{decimal, number_is};
use super::streams::{Streams, read_full, write_all};
use message::{count_too_small, number_bits, number_of_digest};
use std::io;

// For each count its bits, and whether it is too small.
pub fn bits(s: &mut Streams) -> io::Result<()> {
    write_all(s, b":")?;
    let counts = length(s, 64)?;
    for _ in 0..counts {
        let count = number(s)?;
        bits_of(s, count)?;
    }
    Ok(())
}

fn bits_of(s: &mut Streams, count: [u32; 5]) -> io::Result<()> {
    decimal(s, b" ", number_bits(count))?;
    if count_too_small(count) {
        write_all(s, b" small")?;
    }
    Ok(())
}

// The first bits of a digest, from so many on, each time one more.
pub fn first_bits(s: &mut Streams) -> io::Result<()> {
    let mut digest = [0u8; 32];
    read_full(s, &mut digest)?;
    let first = length(s, 128)?;
    let end = first + length(s, 129 - first)?;
    decimal(s, b": from ", first as u32)?;
    for bits in first..end {
        let number = number_of_digest(digest, bits as u32);
        number_is(s, &number)?;
    }
    Ok(())
}
