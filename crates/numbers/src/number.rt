// Numbers of five 32-bit words, least word first: sums, differences and the order.
ghost use Rattle.std.specs.Prelude.{◌≡◌, ◌+◌, ◌-◌, ◌^◌, ◌<◌, ◌≤◌, nat_lt};
ghost use Rattle.numbers.specs.Number.{value, to_words};
ghost use Rattle.numbers.specs.Order.{order_code, Compares};

use super::limbs;
use std::cmp::Ordering;

// a + b, which fits five words.
pub fn add(a: [u32; 5], b: [u32; 5]) -> [u32; 5]
    requires { value a + value b < 2 ^ 160 }
    ensures { result ≡ to_words 5 (value a + value b) }
{
    limbs::add(a.into(), b.into()).into()
}

// a - b, which is not below zero.
pub fn subtract(a: [u32; 5], b: [u32; 5]) -> [u32; 5]
    requires { value b ≤ value a }
    ensures { result ≡ to_words 5 (value a - value b) }
{
    limbs::subtract(a.into(), b.into()).into()
}

// The number of an order that the C interface writes: 0, 1, 2.
pub fn order_code(o: Ordering) -> u32
    ensures { result ≡ order_code o }
{
    match o {
        Ordering::Less => 0,
        Ordering::Equal => 1,
        Ordering::Greater => 2,
    }
}

// The order of two numbers, and how many pairs of words were looked at to find it.
#[derive(Clone, Copy)]
pub struct Compared {
    pub order: Ordering,
    pub looked: u32,
}

// Compares two numbers from the highest word down, as far as the first pair that differs, and counts the pairs one by one.
pub fn compare(a: [u32; 5], b: [u32; 5]) -> Compared
    ensures { Compares a b result }
{
    let mut looked = 0;
    for i in (0..5).rev() {
        looked += 1;
        if a[i] != b[i] {
            return Compared {
                order: a[i].cmp(&b[i]),
                looked,
            };
        }
    }
    Compared {
        order: Ordering::Equal,
        looked,
    }
}

// Whether a is below b. Of arrays with the least word first, the library's order is another.
pub fn less(a: [u32; 5], b: [u32; 5]) -> bool
    ensures { result ≡ nat_lt (value a) (value b) }
{
    compare(a, b).order.is_lt()
}
