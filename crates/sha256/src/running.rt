// The running hash: eight words, a block of pending bytes and the total.
ghost use Rattle.std.specs.Prelude.{◌≡◌, ◌++◌, ◌+◌, ◌-◌, ◌*◌, ◌≤◌, length, take, replicate};
ghost use Rattle.octets.specs.Bytes.{to_bytes};
ghost use Rattle.sha256.specs.Digest.{compress_all, word_bytes};
ghost use Rattle.sha256.specs.Running as spec;

use octets::copy;
use refusal::Refusal;
use sha256_block::{HashWords, compress, initial};

// Of the block, total modulo 64 bytes are pending; the others count for nothing.
#[derive(Clone, Copy)]
pub struct Hash {
    pub words: HashWords,
    pub block: [u8; 64],
    pub total: u16,
}

// What add answers, with the state that it hands back. The running hash goes by value, each step handing the next state back, and
// so does a step that is refused: document 01 names that form.
#[derive(Clone, Copy)]
pub struct Added {
    pub outcome: Result<(), Refusal>,
    pub hash: Hash,
}

impl Hash {
    #[tactic(auto, unfolding(crate::specs::Running::started))]
    pub fn start() -> Hash
        ensures { result ≡ spec.started }
    {
        fresh(initial())
    }

    pub fn add(self, bytes: &[u8]) -> Added
        ensures { spec.Adds self bytes.now result }
    {
        if 65535 - usize::from(self.total) < bytes.len() {
            return Added {
                outcome: Err(Refusal::HashTooLong),
                hash: self,
            };
        }
        Added {
            outcome: Ok(()),
            hash: extended(self, bytes),
        }
    }

    #[tactic(auto, unfolding(crate::specs::Running::finished))]
    pub fn finish(self) -> Hash
        ensures { result ≡ spec.finished self }
    {
        fresh(final_words(self))
    }

    // The 32 bytes of the words: after finish, the digest.
    pub fn digest(self) -> [u8; 32]
        ensures { result ≡ word_bytes self.words }
    {
        let w = self.words;
        let words = [w.a, w.b, w.c, w.d, w.e, w.f, w.g, w.h];
        let mut bytes = [0u8; 32];
        for (k, word) in words.iter().enumerate() {
            copy(&octets::word_bytes(*word), &mut bytes, 4 * k);
        }
        bytes
    }
}

// A state that has taken no bytes.
fn fresh(words: HashWords) -> Hash
    ensures { result ≡ spec.fresh words }
{
    Hash {
        words,
        block: [0; 64],
        total: 0,
    }
}

// The first n bytes of the block, the others zero.
fn kept(mut block: [u8; 64], n: usize) -> [u8; 64]
    requires { n ≤ 64 }
    ensures { result ≡ take n block ++ replicate (64 - n) 0 }
{
    block[n..].fill(0);
    block
}

// The hash value after every whole block of the bytes.
fn absorb(mut words: HashWords, bytes: &[u8]) -> HashWords
    ensures { result ≡ compress_all words bytes.now }
{
    for block in bytes.chunks_exact(64) {
        words = compress(words, block);
    }
    words
}

// What is behind the last whole block, in a block.
fn rest(bytes: &[u8]) -> [u8; 64]
    ensures { result ≡ spec.rest bytes.now }
{
    let mut block = [0u8; 64];
    copy(bytes.chunks_exact(64).remainder(), &mut block, 0);
    block
}

// The state after bytes that are granted.
fn extended(s: Hash, bytes: &[u8]) -> Hash
    requires { s.total + length bytes.now ≤ 65535 }
    ensures { result ≡ spec.extended s bytes.now }
{
    let pending = usize::from(s.total % 64);
    let room = 64 - pending;
    let total = s.total + bytes.len() as u16;
    let mut block = kept(s.block, pending);
    if bytes.len() < room {
        copy(bytes, &mut block, pending);
        return Hash { block, total, ..s };
    }
    let more = &bytes[room..];
    copy(&bytes[..room], &mut block, pending);
    Hash {
        words: absorb(compress(s.words, &block), more),
        block: rest(more),
        total,
    }
}

// The block with the total's number of bits in its last eight bytes.
fn with_length(mut block: [u8; 64], total: u16) -> [u8; 64]
    ensures { result ≡ take 56 block ++ to_bytes 8 (8 * total) }
{
    block[56..].copy_from_slice(&(8 * u64::from(total)).to_be_bytes());
    block
}

// The hash value after the pending bytes and the padding.
fn final_words(s: Hash) -> HashWords
    ensures { result ≡ (spec.finished s).words }
{
    let pending = usize::from(s.total % 64);
    let mut marked = kept(s.block, pending);
    marked[pending] = 128;
    if pending < 56 {
        return compress(s.words, &with_length(marked, s.total));
    }
    compress(compress(s.words, &marked), &with_length([0; 64], s.total))
}
