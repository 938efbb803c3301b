// What is read. Bytes that are missing count as 0.
ghost use Rattle.std.specs.Prelude.{◌≤◌, IfOk};

use super::streams::{Streams, read_full};
use octets::word_at;
use profile::{Profile, Shape};
use std::io;

pub fn word(s: &mut Streams) -> io::Result<u32> {
    let mut bytes = [0u8; 4];
    read_full(s, &mut bytes)?;
    Ok(word_at(&bytes, 0))
}

// A length, and no more than there are.
pub fn length(s: &mut Streams, most: usize) -> io::Result<usize>
    ensures { IfOk result (λ n. n ≤ most) }
{
    let n = word(s)? as usize;
    Ok(n.min(most))
}

pub fn value(s: &mut Streams) -> io::Result<[u8; 16]> {
    let mut bytes = [0u8; 16];
    read_full(s, &mut bytes)?;
    Ok(bytes)
}

pub fn number(s: &mut Streams) -> io::Result<[u32; 5]> {
    Ok([word(s)?, word(s)?, word(s)?, word(s)?, word(s)?])
}

pub fn profile(s: &mut Streams) -> io::Result<Profile> {
    Ok(Profile {
        shape: Shape {
            chains: word(s)?,
            width: word(s)?,
            sum: word(s)?,
        },
        height: word(s)?,
        edition: word(s)?,
    })
}
