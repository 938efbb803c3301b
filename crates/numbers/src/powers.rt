// Powers of two in numbers of five words: the highest that a number holds, and division by one.
ghost use Rattle.std.specs.Prelude.{◌≡◌, ◌+◌, ◌*◌, ◌/◌, ◌%◌, ◌^◌, ◌<◌};
ghost use Rattle.numbers.specs.Number.{value};
ghost use Rattle.numbers.specs.Powers.{Log2};

use super::limbs::limb_of;

// The exponent of the highest power of two in a number; 0 for 0.
pub fn log2(n: [u32; 5]) -> u32
    ensures { Log2 (value n) result }
{
    for i in (0..5).rev() {
        if n[i] != 0 {
            return 32 * i as u32 + n[i].ilog2();
        }
    }
    0
}

// A number without its lowest word.
fn drop_word(n: [u32; 5]) -> [u32; 5]
    ensures { value result ≡ value n / 2 ^ 32 }
{
    [n[1], n[2], n[3], n[4], 0]
}

// The lower of two words, shifted right by less than a word, with the bits that come in from the higher.
fn shift_word(low: u32, high: u32, bits: u32) -> u32
    requires { bits < 32 }
    ensures { result ≡ (low + 2 ^ 32 * high) / 2 ^ bits % 2 ^ 32 }
{
    ((limb_of(low, high) >> bits) % (1 << 32)) as u32
}

// A number shifted right by less than a word.
fn shift_bits(n: [u32; 5], bits: u32) -> [u32; 5]
    requires { bits < 32 }
    ensures { value result ≡ value n / 2 ^ bits }
{
    [
        shift_word(n[0], n[1], bits),
        shift_word(n[1], n[2], bits),
        shift_word(n[2], n[3], bits),
        shift_word(n[3], n[4], bits),
        shift_word(n[4], 0, bits),
    ]
}

// A number shifted right.
pub fn shift_right(n: [u32; 5], bits: u32) -> [u32; 5]
    ensures { value result ≡ value n / 2 ^ bits }
{
    let mut rest = n;
    for _ in 0..bits / 32 {
        // In two steps: `rest = drop_word(rest)` is not proved, since the array would be read and written in one call.
        let upper = drop_word(rest);
        rest = upper;
    }
    shift_bits(rest, bits % 32)
}
