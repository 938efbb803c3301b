// Standard input and output, which every call reads from and writes to.
use std::io;
use std::io::{Read, Stdin, Stdout, Write};

#[derive(Drop)]
pub struct Streams {
    pub input: Stdin,
    pub output: Stdout,
}

// Reads until the bytes are full or the input ends.
pub fn read_full(s: &mut Streams, bytes: &mut [u8]) -> io::Result<()> {
    let mut at = 0;
    // No `for`: a read takes as many bytes as it likes.
    while at < bytes.len() {
        let n = s.input.read(&mut bytes[at..])?;
        if n == 0 {
            break;
        }
        at += n;
    }
    Ok(())
}

pub fn write_all(s: &mut Streams, bytes: &[u8]) -> io::Result<()> {
    s.output.write_all(bytes)
}
