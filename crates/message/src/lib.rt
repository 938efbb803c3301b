// The digest of an order, and its number.
#![tactic(auto)]

ghost use Rattle.std.specs.Prelude.{◌≡◌, cond, ◌++◌, ◌≤◌, eqb, length, take};
ghost use Rattle.octets.specs.Bytes.{from_bytes, first_bits};
ghost use Rattle.numbers.specs.Number.{value};
ghost use Rattle.sha256.specs.Digest.{digest};
ghost use Rattle.counts.specs.Counts as counts;
ghost use Rattle.message.specs.Message.{message_digest, number_bits, message_number, count_too_small};

use numbers::number::less;
use numbers::powers::{log2, shift_right};
use octets::{word_at, word_bytes};
use profile::Profile;
use sha256::Hash;

// The digest over R, the public seed, the root, the bytes of the leaf that the edition takes, and the message.
fn joined_digest(r: &[u8], seed: &[u8], root: &[u8], leaf: &[u8], message: &[u8]) -> [u8; 32]
    requires { (length r.now ≤ 200) × (length seed.now ≤ 200) × (length root.now ≤ 200) × (length leaf.now ≤ 200)
        × (length message.now ≤ 200) }
    ensures { result ≡ digest (r.now ++ seed.now ++ root.now ++ leaf.now ++ message.now) }
{
    // So few bytes are never refused.
    let hash = Hash::start().add(r).hash;
    let hash = hash.add(seed).hash;
    let hash = hash.add(root).hash;
    let hash = hash.add(leaf).hash;
    let hash = hash.add(message).hash;
    hash.finish().digest()
}

// How many bytes of the leaf a digest takes. What the edition adds to a frame is another number, of another crate.
fn leaf_bytes(edition: u32) -> usize
    ensures { result ≡ cond (eqb edition 2) 4 0 }
{
    if edition == 2 { 4 } else { 0 }
}

// The digest of a message that a leaf signs, in an edition.
fn message_digest(
    edition: u32,
    leaf: u32,
    r: [u8; 16],
    seed: [u8; 16],
    root: [u8; 16],
    message: &[u8],
) -> [u8; 32]
    requires { length message.now ≤ 200 }
    ensures { result ≡ message_digest edition leaf r seed root message.now }
{
    joined_digest(
        &r,
        &seed,
        &root,
        &word_bytes(leaf)[..leaf_bytes(edition)],
        message,
    )
}

// Whether a count is too small for a number of 8 bits.
pub fn count_too_small(count: [u32; 5]) -> bool
    ensures { result ≡ count_too_small (value count) }
{
    less(count, [256, 0, 0, 0, 0])
}

// How many bits of the digest a count takes.
#[tactic(auto, using(crate::proofs::NumberLaws::bits_of_log))]
pub fn number_bits(count: [u32; 5]) -> u32
    ensures { result ≡ number_bits (value count) }
{
    log2(count).min(128)
}

// The number that the first 16 bytes of a digest are, in five words.
fn first_words(digest: [u8; 32]) -> [u32; 5]
    ensures { value result ≡ from_bytes (take 16 digest) }
{
    [
        word_at(&digest, 12),
        word_at(&digest, 8),
        word_at(&digest, 4),
        word_at(&digest, 0),
        0,
    ]
}

// The number that the first bits of a digest are.
pub fn number_of_digest(digest: [u8; 32], bits: u32) -> [u32; 5]
    requires { bits ≤ 128 }
    ensures { value result ≡ first_bits bits digest }
{
    shift_right(first_words(digest), 128 - bits)
}

// The message number that a leaf of a profile with this count signs.
pub fn message_number(
    p: Profile,
    count: [u32; 5],
    leaf: u32,
    r: [u8; 16],
    seed: [u8; 16],
    root: [u8; 16],
    message: &[u8],
) -> [u32; 5]
    requires count_value { value count ≡ counts.count p.shape }
    requires message_len_bound { length message.now ≤ 200 }
    ensures { value result ≡ message_number p leaf r seed root message.now }
{
    number_of_digest(
        message_digest(p.edition, leaf, r, seed, root, message),
        number_bits(count),
    )
}
