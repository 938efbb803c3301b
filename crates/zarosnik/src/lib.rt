// The C interface: one exported function an operation, which returns the code of the refusal, 0 for granted.
// Parameters stand in the header's order. When they got their names, contracts had to quote `data` and names with an underscore: `bytes`,
// `seed`, `secret`, `next`, `highest` and `written` are the header's `data`, `public_seed`, `secret_seed`, `next_leaf`, `highest_leaf` and
// `message_written`, and `length` is its `sheet_written` or `frame_written`. `profile` is a function here: `fields` is the header's
// `profile`. The numbers of a profile stay five parameters, since C hands them so.
#![tactic(auto)]

ghost use Rattle.std.specs.Prelude.{◌≡◌};
ghost use Rattle.refusal.specs.Code.{outcome_code};
ghost use Rattle.stored_key.specs.Operations.{no_key};
ghost use Rattle.zarosnik.specs.Interface.{shape_of, profile_of, counter_of, signing_key_of, verifier_of, mark_word, mark_left};
ghost use Rattle.zarosnik.specs.Interface.{HashCall, CountCall, UnrankCall, RankCall, CompareCall, LeafKeyCall, RootCall};
ghost use Rattle.zarosnik.specs.Interface.{RevealCall, RecoverCall, ReserveCall, SignCall, VerifyCall};
ghost use Rattle.zarosnik.specs.Interface.{ReadSheetCall, WriteSheetCall, WriteKeyCall, ReadKeyCall};

use chains::steps::Walked;
use codewords::ranking::rank;
use codewords::unrank;
use counts::table::codeword_count;
use numbers::number::{compare, order_code};
use one_time::{leaf_key, one_time_recover, one_time_sign};
use profile::{Profile, Shape};
use refusal::{Refusal, line_told, outcome_code};
use sha256::Hash;
use sheet_reader::read_sheet;
use sheet_writer::write_sheet;
use signer::sign;
use signing_key::{Counter, SigningKey, reserve};
use stored_key::{read_key, write_key};
use verifier::{Verifier, verify};
use window::Window;

// The code that a call returns.
fn returned<T>(answer: &Result<T, Refusal>) -> u32
    ensures { result ≡ outcome_code answer.now }
{
    u32::from(outcome_code(answer))
}

fn shape(l: u32, w: u32, s: u32) -> Shape
    ensures { result ≡ shape_of l w s }
{
    Shape {
        chains: l,
        width: w,
        sum: s,
    }
}

fn profile(l: u32, w: u32, s: u32, h: u32, edition: u32) -> Profile
    ensures { result ≡ profile_of l w s h edition }
{
    Profile {
        shape: shape(l, w, s),
        height: h,
        edition,
    }
}

// What a mark is written as.
fn mark_word(mark: bool) -> u32
    ensures { result ≡ mark_word mark }
{
    u32::from(mark)
}

// The word of a mark that a call leaves: the new one where it is granted, else the old one, whatever that is.
fn mark_left<T>(answer: &Result<T, Refusal>, old: u32, mark: bool) -> u32
    ensures { result ≡ mark_left (outcome_code answer.now) old mark }
{
    match answer {
        Err(_) => old,
        Ok(_) => mark_word(mark),
    }
}

// A mark is the word 1, and every other word is none.
fn counter(next: u32, mark: u32) -> Counter
    ensures { result ≡ counter_of next mark }
{
    Counter {
        next,
        mark: mark == 1,
    }
}

// The key of a refused answer.
fn no_key() -> SigningKey
    ensures { result ≡ no_key }
{
    signing_key(profile(0, 0, 0, 0, 0), &[0; 16], &[0; 16], 0, 0)
}

// A key by its fields.
fn signing_key(p: Profile, seed: &[u8; 16], secret: &[u8; 16], next: u32, mark: u32) -> SigningKey
    ensures { result ≡ signing_key_of p seed.now secret.now next mark }
{
    SigningKey {
        profile: p,
        seed: *seed,
        secret: *secret,
        counter: counter(next, mark),
    }
}

// Hash, in one call.
#[unsafe(no_mangle)]
pub extern "C" fn zarosnik_hash(bytes: &[u8], digest: &mut [u8; 32]) -> u32
    ensures { HashCall bytes.now digest.new result }
{
    let added = Hash::start().add(bytes);
    *digest = match added.outcome {
        Ok(()) => added.hash.finish().digest(),
        Err(_) => [0; 32],
    };
    returned(&added.outcome)
}

// Count.
#[unsafe(no_mangle)]
pub extern "C" fn zarosnik_count(
    l: u32,
    w: u32,
    s: u32,
    table: &mut [u32],
    number: &mut [u32; 5],
) -> u32
    ensures { CountCall (shape_of l w s) table.old table.new number.new result }
{
    let counted = codeword_count(shape(l, w, s), table);
    *number = counted.unwrap_or([0; 5]);
    returned(&counted)
}

// Spread.
#[unsafe(no_mangle)]
pub extern "C" fn zarosnik_unrank(
    l: u32,
    w: u32,
    s: u32,
    number: &[u32; 5],
    table: &mut [u32],
    row: &mut [u8],
) -> u32
    ensures { UnrankCall (shape_of l w s) number.now table.old row.old
        table.new row.new result }
{
    returned(&unrank(shape(l, w, s), *number, table, row))
}

// Gather.
#[unsafe(no_mangle)]
pub extern "C" fn zarosnik_rank(
    l: u32,
    w: u32,
    s: u32,
    row: &[u8],
    table: &mut [u32],
    number: &mut [u32; 5],
) -> u32
    ensures { RankCall (shape_of l w s) row.now table.old table.new number.new result }
{
    let ranked = rank(shape(l, w, s), row, table);
    *number = ranked.unwrap_or([0; 5]);
    returned(&ranked)
}

// Compare.
#[unsafe(no_mangle)]
pub extern "C" fn zarosnik_compare(
    first: &[u32; 5],
    second: &[u32; 5],
    order: &mut u32,
    looked: &mut u32,
) -> u32
    ensures { CompareCall first.now second.now order.new looked.new result }
{
    let compared = compare(*first, *second);
    *order = order_code(compared.order);
    *looked = compared.looked;
    0
}

// Leaf key.
#[unsafe(no_mangle)]
pub extern "C" fn zarosnik_leaf_key(
    l: u32,
    w: u32,
    s: u32,
    h: u32,
    edition: u32,
    seed: &[u8; 16],
    secret: &[u8; 16],
    leaf: u32,
    key: &mut [u8; 16],
) -> u32
    ensures { LeafKeyCall (profile_of l w s h edition) seed.now secret.now leaf key.new result }
{
    let made = leaf_key(profile(l, w, s, h, edition), *seed, secret, leaf);
    *key = made.unwrap_or([0; 16]);
    returned(&made)
}

// Root.
#[unsafe(no_mangle)]
pub extern "C" fn zarosnik_root(
    l: u32,
    w: u32,
    s: u32,
    h: u32,
    edition: u32,
    seed: &[u8; 16],
    secret: &[u8; 16],
    root: &mut [u8; 16],
) -> u32
    ensures { RootCall (profile_of l w s h edition) seed.now secret.now root.new result }
{
    let made = tree::root(profile(l, w, s, h, edition), *seed, secret);
    *root = made.unwrap_or([0; 16]);
    returned(&made)
}

// Reveal.
#[unsafe(no_mangle)]
pub extern "C" fn zarosnik_one_time_sign(
    l: u32,
    w: u32,
    s: u32,
    h: u32,
    edition: u32,
    seed: &[u8; 16],
    secret: &[u8; 16],
    leaf: u32,
    number: &[u32; 5],
    table: &mut [u32],
    values: &mut [u8],
) -> u32
    ensures { RevealCall (profile_of l w s h edition) seed.now secret.now leaf
        number.now table.old values.old table.new values.new result }
{
    let p = profile(l, w, s, h, edition);
    returned(&one_time_sign(p, *seed, secret, leaf, *number, table, values))
}

// Recover.
#[unsafe(no_mangle)]
pub extern "C" fn zarosnik_one_time_recover(
    l: u32,
    w: u32,
    s: u32,
    h: u32,
    edition: u32,
    seed: &[u8; 16],
    leaf: u32,
    number: &[u32; 5],
    values: &[u8],
    table: &mut [u32],
    key: &mut [u8; 16],
    steps: &mut u32,
) -> u32
    ensures { RecoverCall (profile_of l w s h edition) seed.now leaf number.now
        values.now table.old table.new key.new steps.new result }
{
    let p = profile(l, w, s, h, edition);
    let recovered = one_time_recover(p, *seed, leaf, *number, values, table);
    let found = recovered.unwrap_or(Walked {
        value: [0; 16],
        steps: 0,
    });
    // In two steps: no proof is written of an array laid into a pointer from a field.
    let value = found.value;
    *key = value;
    *steps = found.steps;
    returned(&recovered)
}

// Reserve.
#[unsafe(no_mangle)]
pub extern "C" fn zarosnik_reserve(
    l: u32,
    w: u32,
    s: u32,
    h: u32,
    edition: u32,
    next: &mut u32,
    mark: &mut u32,
) -> u32
    ensures { ReserveCall (profile_of l w s h edition) next.old mark.old
        next.new mark.new result }
{
    let mut leaves = counter(*next, *mark);
    let reserved = reserve(profile(l, w, s, h, edition), &mut leaves);
    *next = leaves.next;
    *mark = mark_left(&reserved, *mark, leaves.mark);
    returned(&reserved)
}

// Sign.
#[unsafe(no_mangle)]
pub extern "C" fn zarosnik_sign(
    l: u32,
    w: u32,
    s: u32,
    h: u32,
    edition: u32,
    seed: &[u8; 16],
    secret: &[u8; 16],
    next: u32,
    mark: &mut u32,
    r: &[u8; 16],
    message: &[u8],
    table: &mut [u32],
    signature: &mut [u8],
) -> u32
    ensures { SignCall
        (signing_key_of (profile_of l w s h edition) seed.now secret.now next mark.old)
        (record { r = r.entry.now; message = message.now; work = table.old; out = signature.old })
        table.new signature.new mark.old mark.new result }
{
    let mut key = signing_key(profile(l, w, s, h, edition), seed, secret, next, *mark);
    let signed = sign(&mut key, *r, message, table, signature);
    *mark = mark_left(&signed, *mark, key.counter.mark);
    returned(&signed)
}

// Check.
#[unsafe(no_mangle)]
pub extern "C" fn zarosnik_verify(
    l: u32,
    w: u32,
    s: u32,
    h: u32,
    edition: u32,
    seed: &[u8; 16],
    root: &[u8; 16],
    highest: &mut u32,
    marks: &mut u32,
    message: &[u8],
    signature: &[u8],
    table: &mut [u32],
    steps: &mut u32,
) -> u32
    ensures { VerifyCall
        (verifier_of (profile_of l w s h edition) seed.now root.now highest.old marks.old)
        (record { message = message.entry.now; signature = signature.now; work = table.old })
        table.new highest.new marks.new steps.new result }
{
    let mut verifier = Verifier {
        profile: profile(l, w, s, h, edition),
        seed: *seed,
        root: *root,
        window: Window {
            highest: *highest,
            marks: *marks,
        },
    };
    let verdict = verify(&mut verifier, message, signature, table);
    *highest = verifier.window.highest;
    *marks = verifier.window.marks;
    *steps = verdict.steps;
    returned(&verdict.outcome)
}

// Read sheet.
#[unsafe(no_mangle)]
pub extern "C" fn zarosnik_read_sheet(
    l: u32,
    w: u32,
    s: u32,
    h: u32,
    edition: u32,
    sheet: &[u8],
    signature: &mut [u8],
    message: &mut [u8],
    written: &mut usize,
    line: &mut u32,
) -> u32
    ensures { ReadSheetCall (profile_of l w s h edition) sheet.now signature.old
        message.old signature.new message.new written.new line.new result }
{
    let read = read_sheet(profile(l, w, s, h, edition), sheet, signature, message);
    *written = read.unwrap_or(0);
    *line = line_told(&read);
    returned(&read)
}

// Write sheet.
#[unsafe(no_mangle)]
pub extern "C" fn zarosnik_write_sheet(
    l: u32,
    w: u32,
    s: u32,
    h: u32,
    edition: u32,
    signature: &[u8],
    message: &[u8],
    sheet: &mut [u8],
    length: &mut usize,
) -> u32
    ensures { WriteSheetCall (profile_of l w s h edition) signature.now message.now
        sheet.old sheet.new length.new result }
{
    let made = write_sheet(profile(l, w, s, h, edition), signature, message, sheet);
    *length = made.unwrap_or(0);
    returned(&made)
}

// Write key.
#[unsafe(no_mangle)]
pub extern "C" fn zarosnik_write_key(
    l: u32,
    w: u32,
    s: u32,
    h: u32,
    edition: u32,
    seed: &[u8; 16],
    secret: &[u8; 16],
    next: u32,
    mark: u32,
    frame: &mut [u8],
    length: &mut usize,
) -> u32
    ensures { WriteKeyCall
        (signing_key_of (profile_of l w s h edition) seed.now secret.now next mark)
        frame.old frame.new length.new result }
{
    let key = signing_key(profile(l, w, s, h, edition), seed, secret, next, mark);
    let made = write_key(key, frame);
    *length = made.unwrap_or(0);
    returned(&made)
}

// Read key.
#[unsafe(no_mangle)]
pub extern "C" fn zarosnik_read_key(
    frame: &[u8],
    fields: &mut [u32; 5],
    seed: &mut [u8; 16],
    secret: &mut [u8; 16],
    next: &mut u32,
    mark: &mut u32,
    line: &mut u32,
) -> u32
    ensures { ReadKeyCall frame.now fields.new seed.new secret.new
        next.new mark.new line.new result }
{
    let read = read_key(frame);
    // Borrowed: to unwrap the key would leave more copies of the secret seed on the stack.
    let none = no_key();
    let key = match &read {
        Ok(key) => key,
        Err(_) => &none,
    };
    let p = key.profile;
    *fields = [
        p.shape.chains,
        p.shape.width,
        p.shape.sum,
        p.height,
        p.edition,
    ];
    // In two steps, as above.
    let seed_read = key.seed;
    *seed = seed_read;
    let secret_read = key.secret;
    *secret = secret_read;
    *next = key.counter.next;
    *mark = mark_word(key.counter.mark);
    *line = line_told(&read);
    returned(&read)
}
