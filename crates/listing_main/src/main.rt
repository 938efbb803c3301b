// The listing program: reads a line from standard input and writes the listing that it asks for.
#![tactic(auto)]

use listing::Input;
use std::io;
use std::io::{Read, Write};

// What is read and what is written is decided by the functions of `listing`; here are the calls that read and write. Each
// read asks the system for one byte, so nothing behind the line is taken.
fn main(rt: HostRuntime) -> io::Result<()> {
    // Here and not behind the loop, where the compiled code would fill them with zeros twice.
    let mut table = [0u32; 16000];
    let mut out = [0u8; 22272];
    let mut input = Input::start();
    // No `for`: how many reads there are, each read tells.
    while 0 < input.left() {
        let mut byte = [0u8; 1];
        let n = rt.stdin().read(&mut byte)?;
        input.take(&byte[..n]);
    }
    let written = listing::listing(input, &mut table, &mut out);
    rt.stdout().write_all(&out[..written])
}
