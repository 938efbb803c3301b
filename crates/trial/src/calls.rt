// The operations, by the tests' own numbers. Each reads what it takes besides the slices, and writes its answer.
use super::bits::{bits, first_bits};
use super::hash::hash;
use super::input::{length, number, profile, value, word};
use super::output::{decimal, hex, number_is, outcome_is};
use super::streams::{Streams, read_full, write_all};
use chains::steps::Walked;
use refusal::line_told;
use signing_key::{Counter, SigningKey};
use std::io;
use std::io::Write;
use verifier::Verifier;
use window::Window;

pub fn call(
    s: &mut Streams,
    operation: u32,
    table: &mut [u32],
    bytes: &mut [u8],
    text: &mut [u8],
) -> io::Result<()> {
    // The numbers are the input's own and stand here alone, so an enum would say each of them twice.
    match operation {
        0 => hash(s, bytes, text),
        1 => count(s, table),
        2 => unrank(s, table, bytes),
        3 => rank(s, table, bytes),
        4 => leaf_key(s),
        5 => root(s),
        6 => reveal(s, table, bytes),
        7 => recover(s, table, bytes),
        8 => orders(s, table, text, bytes),
        9 => check(s, table, text, bytes),
        10 => sheet(s, bytes, text),
        11 => bits(s),
        _ => first_bits(s),
    }
}

fn count(s: &mut Streams, table: &mut [u32]) -> io::Result<()> {
    let counted = counts::codeword_count(profile(s)?.shape, table);
    outcome_is(s, &counted)?;
    number_is(s, &counted.unwrap_or([0; 5]))
}

fn unrank(s: &mut Streams, table: &mut [u32], row: &mut [u8]) -> io::Result<()> {
    let p = profile(s)?;
    let n = number(s)?;
    outcome_is(s, &codewords::unrank(p.shape, n, table, row))
}

fn rank(s: &mut Streams, table: &mut [u32], row: &[u8]) -> io::Result<()> {
    let ranked = codewords::rank(profile(s)?.shape, row, table);
    outcome_is(s, &ranked)?;
    number_is(s, &ranked.unwrap_or([0; 5]))
}

fn leaf_key(s: &mut Streams) -> io::Result<()> {
    let p = profile(s)?;
    let seed = value(s)?;
    let secret = value(s)?;
    let leaf = word(s)?;
    let made = one_time::leaf_key(p, seed, &secret, leaf);
    outcome_is(s, &made)?;
    hex(s, b", key ", &made.unwrap_or([0; 16]))
}

fn root(s: &mut Streams) -> io::Result<()> {
    let p = profile(s)?;
    let seed = value(s)?;
    let secret = value(s)?;
    let made = tree::root(p, seed, &secret);
    outcome_is(s, &made)?;
    hex(s, b", root ", &made.unwrap_or([0; 16]))
}

fn reveal(s: &mut Streams, table: &mut [u32], values: &mut [u8]) -> io::Result<()> {
    let p = profile(s)?;
    let seed = value(s)?;
    let secret = value(s)?;
    let leaf = word(s)?;
    let n = number(s)?;
    outcome_is(
        s,
        &one_time::one_time_sign(p, seed, &secret, leaf, n, table, values),
    )
}

fn recover(s: &mut Streams, table: &mut [u32], values: &[u8]) -> io::Result<()> {
    let p = profile(s)?;
    let seed = value(s)?;
    let leaf = word(s)?;
    let n = number(s)?;
    let recovered = one_time::one_time_recover(p, seed, leaf, n, values, table);
    outcome_is(s, &recovered)?;
    let found = recovered.unwrap_or(Walked {
        value: [0; 16],
        steps: 0,
    });
    hex(s, b", key ", &found.value)?;
    decimal(s, b", steps ", found.steps)
}

// The steps of a desk, each with the key that the one before left.
fn orders(s: &mut Streams, table: &mut [u32], text: &[u8], signature: &mut [u8]) -> io::Result<()> {
    let mut key = SigningKey {
        profile: profile(s)?,
        seed: value(s)?,
        secret: value(s)?,
        counter: Counter {
            next: word(s)?,
            mark: word(s)? == 1,
        },
    };
    let r = value(s)?;
    let steps = length(s, 16)?;
    for _ in 0..steps {
        // The steps' numbers are the input's own and stand here alone.
        match word(s)? {
            0 => reserve(s, &mut key)?,
            1 => sign(s, &mut key, r, table, text, signature)?,
            _ => restart(s, &mut key)?,
        }
    }
    Ok(())
}

fn reserve(s: &mut Streams, key: &mut SigningKey) -> io::Result<()> {
    write_all(s, b": reserve")?;
    outcome_is(s, &signing_key::reserve(key.profile, &mut key.counter))?;
    counter_is(s, key.counter)
}

fn sign(
    s: &mut Streams,
    key: &mut SigningKey,
    r: [u8; 16],
    table: &mut [u32],
    text: &[u8],
    signature: &mut [u8],
) -> io::Result<()> {
    write_all(s, b": sign")?;
    outcome_is(s, &signer::sign(key, r, text, table, signature))?;
    counter_is(s, key.counter)
}

fn restart(s: &mut Streams, key: &mut SigningKey) -> io::Result<()> {
    write_all(s, b": restart")?;
    *key = signing_key::restart(*key);
    counter_is(s, key.counter)
}

fn counter_is(s: &mut Streams, counter: Counter) -> io::Result<()> {
    decimal(s, b", next ", counter.next)?;
    decimal(s, b", mark ", u32::from(counter.mark))
}

// The second call gets the cabinet that the first left.
fn check(s: &mut Streams, table: &mut [u32], text: &[u8], signature: &[u8]) -> io::Result<()> {
    let mut cabinet = Verifier {
        profile: profile(s)?,
        seed: value(s)?,
        root: value(s)?,
        window: Window {
            highest: word(s)?,
            marks: word(s)?,
        },
    };
    for _ in 0..2 {
        check_by(s, &mut cabinet, table, text, signature)?;
    }
    Ok(())
}

fn check_by(
    s: &mut Streams,
    v: &mut Verifier,
    table: &mut [u32],
    text: &[u8],
    signature: &[u8],
) -> io::Result<()> {
    let verdict = verifier::verify(v, text, signature, table);
    outcome_is(s, &verdict.outcome)?;
    decimal(s, b", highest ", v.window.highest)?;
    decimal(s, b", marks ", v.window.marks)?;
    decimal(s, b", steps ", verdict.steps)
}

fn sheet(s: &mut Streams, signature: &mut [u8], text: &mut [u8]) -> io::Result<()> {
    let mut sheet = [0u8; 4096];
    let n = length(s, 4096)?;
    read_sheet(s, &mut sheet[..n], signature, text)
}

fn read_sheet(
    s: &mut Streams,
    sheet: &mut [u8],
    signature: &mut [u8],
    text: &mut [u8],
) -> io::Result<()> {
    read_full(s, sheet)?;
    let p = profile(s)?;
    let read = sheet_reader::read_sheet(p, sheet, signature, text);
    outcome_is(s, &read)?;
    decimal(s, b", line ", line_told(&read))?;
    write_all(s, b", length ")?;
    let length = read.unwrap_or(0);
    write!(s.output, "{length}")
}
