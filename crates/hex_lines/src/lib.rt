// Bytes as upper-case hex, two characters a byte, and lines of them.
#![tactic(auto)]

ghost use Rattle.std.specs.Prelude.{◌≡◌, [], ◌∷◌, ◌+◌, ◌*◌, ◌≤◌, ◌<◌, eqb, length, get_or};
ghost use Rattle.hex_lines.specs.Hex.{hex_digit, hex_of, line_end, line_of};
ghost use Rattle.hex_lines.specs.inner.Digits.{digit_in, byte_at, between, ReadsLine};

// The character of a digit.
#[tactic(auto, unfolding(crate::specs::Hex::hex_digit))]
pub fn hex_digit(d: u8) -> u8
    requires { d < 16 }
    ensures { result ≡ hex_digit d }
{
    if d < 10 { b'0' + d } else { b'A' + (d - 10) }
}

// The digit that a character is.
#[tactic(auto, unfolding(crate::specs::Hex::digit_of))]
pub fn digit_of(c: u8) -> Option<u8>
    ensures { result ≡ digit_in c }
{
    match c {
        b'0'..=b'9' => Some(c - b'0'),
        b'A'..=b'F' => Some(c - b'A' + 10),
        _ => None,
    }
}

// The byte that two characters are, from index `at` on.
#[tactic(auto, unfolding(crate::specs::inner::Digits::byte_of, crate::specs::inner::Digits::byte_at))]
pub fn byte_at(chars: &[u8], at: usize) -> Option<u8>
    ensures { result ≡ byte_at chars.now at }
{
    let high = digit_of(*chars.get(at)?)?;
    let low = digit_of(*chars.get(at + 1)?)?;
    Some(16 * high + low)
}

// Whether a line ends at an index.
pub fn ends_at(chars: &[u8], at: usize) -> bool
    ensures { result ≡ eqb (get_or chars.now at 0) line_end }
{
    chars.get(at) == Some(&b'\n')
}

// Whether the line from index `at` on has exactly as many bytes as the slice, which then holds them. Else it holds those
// in front of the first that is wrong, and behind them what stood there (`ReadsLine`), which no Option of bytes could tell.
pub fn read_line(chars: &[u8], at: usize, bytes: &mut [u8]) -> bool
    requires { at ≤ length chars.now }
    ensures { ReadsLine chars.now at bytes.old bytes.new result }
{
    for (i, byte) in bytes.iter_mut().enumerate() {
        let Some(b) = byte_at(chars, at + 2 * i) else {
            return false;
        };
        *byte = b;
    }
    ends_at(chars, at + 2 * bytes.len())
}

// Writes a byte as two characters from index `at` on.
#[tactic(auto, using(crate::proofs::Writing::stored_byte))]
pub fn write_byte(out: &mut [u8], at: usize, byte: u8)
    requires { at + 2 ≤ length out.old }
    ensures { out.new ≡ between out.old at (hex_of (byte ∷ [])) (at + 2) }
{
    out[at] = hex_digit(byte / 16);
    out[at + 1] = hex_digit(byte % 16);
}

// Writes bytes from index `at` on.
pub fn write_bytes(out: &mut [u8], at: usize, bytes: &[u8])
    requires { at + 2 * length bytes.now ≤ length out.old }
    ensures { out.new ≡ between out.old at (hex_of bytes.now) (at + 2 * length bytes.now) }
{
    for (i, byte) in bytes.iter().enumerate() {
        write_byte(out, at + 2 * i, *byte);
    }
}

// Writes bytes as a line from index `at` on, and gives the index behind it.
pub fn write_line(out: &mut [u8], at: usize, bytes: &[u8]) -> usize
    requires { at + 2 * length bytes.now + 1 ≤ length out.old }
    ensures { (result ≡ at + length (line_of bytes.now))
        × (out.new ≡ between out.old at (line_of bytes.now) result) }
{
    write_bytes(out, at, bytes);
    let end = at + 2 * bytes.len();
    out[end] = b'\n';
    end + 1
}
