// Makes the calls that standard input asks for, and writes a line for each: what it answered, and what the slices that it
// was lent hold afterwards.
//
// The input is the number of calls, and for each one how many words it is lent and how many bytes in three slices; the bytes:
// a label, which begins the line, and two slices that a call may write; the operation; and what else it takes. Every number
// has four bytes, most significant first.
#![tactic(auto)]

mod bits;
mod calls;
mod hash;
mod input;
mod output;
mod streams;

use input::{length, word};
use std::io;
use streams::{Streams, read_full, write_all};

fn main(rt: HostRuntime) -> io::Result<()> {
    let mut s = Streams {
        input: rt.stdin(),
        output: rt.stdout(),
    };
    let mut table = [0u32; 44803];
    let count = word(&mut s)? as usize;
    for _ in 0..count {
        lend(&mut s, &mut table)?;
    }
    Ok(())
}

fn lend(s: &mut Streams, table: &mut [u32]) -> io::Result<()> {
    let mut label = [0u8; 128];
    let mut bytes = [0u8; 1024];
    let mut text = [0u8; 256];
    let w = length(s, table.len())?;
    let k = length(s, 128)?;
    let n = length(s, 1024)?;
    let m = length(s, 256)?;
    make(
        s,
        &mut table[..w],
        &mut label[..k],
        &mut bytes[..n],
        &mut text[..m],
    )
}

fn make(
    s: &mut Streams,
    table: &mut [u32],
    label: &mut [u8],
    bytes: &mut [u8],
    text: &mut [u8],
) -> io::Result<()> {
    stale(table);
    read_full(s, label)?;
    read_full(s, bytes)?;
    read_full(s, text)?;
    write_all(s, label)?;
    let operation = word(s)?;
    calls::call(s, operation, table, bytes, text)?;
    output::slices(s, table, bytes, text)
}

// No word is 0, so a count of 0 that a table leaves out is seen.
fn stale(words: &mut [u32]) {
    for (i, word) in words.iter_mut().enumerate() {
        *word = 0xa5000000 + (i % 0x1000000) as u32;
    }
}
