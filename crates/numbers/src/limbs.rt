// Numbers of five words in three limbs, the two lowest words, the two above them and the highest, so that a 64-bit machine
// adds and subtracts them in few instructions.
ghost use Rattle.std.specs.Prelude.{◌≡◌, ◌+◌, ◌*◌, ◌^◌, ◌<◌, ◌≤◌};
ghost use Rattle.numbers.specs.Number.{value, to_words};
ghost use Rattle.numbers.specs.inner.Limbs.{number};

#[derive(Clone, Copy)]
pub struct Limbs {
    pub low: u64,
    pub middle: u64,
    pub high: u32,
}

// The number in five words, as limbs.
impl From<[u32; 5]> for Limbs {
    ghost from_gives = { λ n limbs. number limbs ≡ value n };

    fn from(n: [u32; 5]) -> Limbs {
        Limbs {
            low: limb_of(n[0], n[1]),
            middle: limb_of(n[2], n[3]),
            high: n[4],
        }
    }
}

// The number in limbs, as five words.
impl From<Limbs> for [u32; 5] {
    ghost from_gives = { λ limbs n. n ≡ to_words 5 (number limbs) };

    fn from(n: Limbs) -> [u32; 5] {
        [
            (n.low % (1 << 32)) as u32,
            (n.low >> 32) as u32,
            (n.middle % (1 << 32)) as u32,
            (n.middle >> 32) as u32,
            n.high,
        ]
    }
}

// a + b, which fits five words.
#[tactic(auto, unfolding(crate::specs::inner::Limbs::number, crate::specs::inner::Limbs::upper))]
pub fn add(a: Limbs, b: Limbs) -> Limbs
    requires { number a + number b < 2 ^ 160 }
    ensures { number result ≡ number a + number b }
{
    // Tried with `carrying_add`, as `subtract` has `borrowing_sub`: filling a table then took nearly twice as many instructions.
    let low = u128::from(a.low) + u128::from(b.low);
    let middle = u128::from(a.middle) + u128::from(b.middle) + (low >> 64);
    Limbs {
        low: (low % (1 << 64)) as u64,
        middle: (middle % (1 << 64)) as u64,
        high: a.high + b.high + (middle >> 64) as u32,
    }
}

// a - b, which is not below zero.
#[tactic(auto, unfolding(crate::specs::inner::Limbs::number, crate::specs::inner::Limbs::upper))]
pub fn subtract(a: Limbs, b: Limbs) -> Limbs
    requires { number b ≤ number a }
    ensures { number result + number b ≡ number a }
{
    let (low, borrow) = a.low.borrowing_sub(b.low, false);
    let (middle, borrow) = a.middle.borrowing_sub(b.middle, borrow);
    Limbs {
        low,
        middle,
        high: a.high - b.high - u32::from(borrow),
    }
}

// Two words as a limb: a function and no `From`, which a pair of words has for no type.
pub fn limb_of(low: u32, high: u32) -> u64
    ensures { result ≡ low + 2 ^ 32 * high }
{
    u64::from(low) + (u64::from(high) << 32)
}
