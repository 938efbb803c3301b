// Sign: the signature of a message, with the leaf that the key has marked.
#![tactic(auto)]

ghost use Rattle.std.specs.Prelude.{◌≡◌, ◌+◌, ◌*◌, ◌≤◌, take};
ghost use Rattle.refusal.specs.Code.{outcome_code, first_cause};
ghost use Rattle.chains.specs.Leaves.{revealed};
ghost use Rattle.signature.specs.Signature.{joined_parts, signature_length};
ghost use Rattle.signer.specs.Signing.{key_signature};
ghost use Rattle.signer.specs.Operations.{SigningCall, sign_causes, Signs};
ghost use Rattle.signer.specs.inner.Making.{ReadyToSign};

use chains::leaves::write_values;
use chains::{LimitedChains, limited_chains};
use codewords::unranking::write_codeword;
use counts::table::{check_table, fill};
use message::{count_too_small, message_number};
use octets::{copy, word_bytes};
use profile::LimitedShape;
use refusal::{Refusal, refuse_if};
use signature::{outside_text, signature_length};
use signing_key::{SigningKey, mark_stands};
use tree::way_up;
use tweak::{Hasher, Leaf, first_hasher};

// The causes of Sign between 5 and 19.
fn check_order(key: &SigningKey, text: usize, bytes: usize) -> Result<(), Refusal>
    ensures { outcome_code result ≡ first_cause (sign_causes key.now text bytes) }
{
    refuse_if(outside_text(text), Refusal::MessageLength)?;
    refuse_if(
        bytes < signature_length(key.profile),
        Refusal::OutputTooShort,
    )?;
    refuse_if(!mark_stands(key.profile, key.counter), Refusal::NoMark)
}

// Makes a signature: the leaf, R, the values that the codeword shows, and the siblings. The longest has 820 bytes. What it is made in
// is not on the stack while the tree is hashed.
#[inline(never)]
fn make_signature(
    hasher: Hasher,
    limited: LimitedChains,
    key: &SigningKey,
    leaf: u32,
    r: [u8; 16],
    row: [u8; 40],
    siblings: [u8; 160],
) -> [u8; 820]
    requires { key.now.profile.height ≤ 10 }
    ensures { take (20 + 16 * limited.chains.count + 16 * key.now.profile.height) result
        ≡ joined_parts leaf r (revealed hasher.domain limited.chains key.now.secret leaf row)
        (take (16 * key.now.profile.height) siblings) }
{
    let count = limited.chains.count as usize;
    let bytes = 16 * key.profile.height as usize;
    let mut made = [0u8; 820];
    copy(&word_bytes(leaf), &mut made, 0);
    copy(&r, &mut made, 4);
    write_values(hasher, limited, &key.secret, Leaf(leaf), row, &mut made, 20);
    copy(&siblings[..bytes], &mut made, 20 + 16 * count);
    made
}

// The signature that a key makes of a message with its marked leaf, behind the causes of Sign and with a table that is filled.
fn key_signature(
    key: &SigningKey,
    count: [u32; 5],
    r: [u8; 16],
    message: &[u8],
    table: &[u32],
) -> [u8; 820]
    requires { ReadyToSign key.now count message.now table.now }
    ensures { take (signature_length key.now.profile) result ≡ key_signature key.now r message.now }
{
    let p = key.profile;
    let leaf = key.counter.next - 1;
    let hasher = first_hasher(key.seed);
    let limited = LimitedShape { shape: p.shape };
    let chains = limited_chains(limited);
    let way = way_up(hasher, chains, &key.secret, p.height, leaf);
    let number = message_number(p, count, leaf, r, key.seed, way.root, message);
    let mut row = [0u8; 40];
    write_codeword(limited, number, table, &mut row);
    make_signature(hasher, chains, key, leaf, r, row, way.siblings)
}

// Sign: the signature of the message, with the leaf that Reserve has marked, the one before the key's next, into the first
// bytes of `signature`, which are written once everything is decided. The key is without its mark then.
pub fn sign(
    key: &mut SigningKey,
    r: [u8; 16],
    message: &[u8],
    table: &mut [u32],
    signature: &mut [u8],
) -> Result<(), Refusal>
    ensures { Signs key.old
        (record { r = r; message = message.now; work = table.old; out = signature.old })
        table.new signature.new key.new result }
{
    let p = key.profile;
    check_table(p, table.len())?;
    check_order(key, message.len(), signature.len())?;
    let limited = LimitedShape { shape: p.shape };
    let count = fill(limited, table);
    refuse_if(count_too_small(count), Refusal::CountTooSmall)?;
    let made = key_signature(key, count, r, message, table);
    copy(&made[..signature_length(p)], signature, 0);
    key.counter.mark = false;
    Ok(())
}
