// The running hash from a state that a caller hands in, which the C interface does not have.
use super::input::word;
use super::output::{decimal, hex, outcome_is};
use super::streams::Streams;
use sha256::Hash;
use sha256_block::HashWords;
use std::io;

// Two pieces, one after the other; what the state then holds, and the digest.
pub fn hash(s: &mut Streams, one: &[u8], two: &[u8]) -> io::Result<()> {
    let start = state(s)?;
    let first = start.add(one);
    outcome_is(s, &first.outcome)?;
    let last = first.hash.add(two);
    outcome_is(s, &last.outcome)?;
    state_is(s, b", total ", last.hash)?;
    let finished = last.hash.finish();
    state_is(s, b", finished: total ", finished)?;
    hex(s, b", digest ", &finished.digest())
}

// The start, or a state that no run reaches, at any total: every byte of its block is 0xA5, also where nothing is pending.
fn state(s: &mut Streams) -> io::Result<Hash> {
    if word(s)? == 0 {
        return Ok(Hash::start());
    }
    let total = word(s)?;
    Ok(Hash {
        words: HashWords {
            a: 0x01234567,
            b: 0x89abcdef,
            c: 0xfedcba98,
            d: 0x76543210,
            e: 0xdeadbeef,
            f: 0x00000000,
            g: 0xffffffff,
            h: 0x80000001,
        },
        block: [0xa5; 64],
        total: (total % 65536) as u16,
    })
}

fn state_is(s: &mut Streams, label: &[u8], hash: Hash) -> io::Result<()> {
    decimal(s, label, u32::from(hash.total))?;
    hex(s, b", block ", &hash.block)
}
