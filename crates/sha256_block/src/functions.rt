// FIPS 180-4, 4.1.2: the six functions on 32-bit words.
ghost use Rattle.std.specs.Prelude.{◌≡◌};
ghost use Rattle.sha256_block.specs.Functions.{Ch, Maj, Σ₀, Σ₁, σ₀, σ₁};

// Has one operation less than (4.2).
pub fn ch(x: u32, y: u32, z: u32) -> u32
    ensures { result ≡ Ch x y z }
{
    z ^ (x & (y ^ z))
}

// `x ^ y` is the `y ^ z` of the next round, so that a round computes one of the two.
pub fn maj(x: u32, y: u32, z: u32) -> u32
    ensures { result ≡ Maj x y z }
{
    y ^ ((x ^ y) & (y ^ z))
}

// The four below stay apart: each is one line of the standard, and one function over the amounts would be called by four that give them.
pub fn big_sigma0(x: u32) -> u32
    ensures { result ≡ Σ₀ x }
{
    x.rotate_right(2) ^ x.rotate_right(13) ^ x.rotate_right(22)
}

pub fn big_sigma1(x: u32) -> u32
    ensures { result ≡ Σ₁ x }
{
    x.rotate_right(6) ^ x.rotate_right(11) ^ x.rotate_right(25)
}

pub fn small_sigma0(x: u32) -> u32
    ensures { result ≡ σ₀ x }
{
    x.rotate_right(7) ^ x.rotate_right(18) ^ (x >> 3)
}

pub fn small_sigma1(x: u32) -> u32
    ensures { result ≡ σ₁ x }
{
    x.rotate_right(17) ^ x.rotate_right(19) ^ (x >> 10)
}
