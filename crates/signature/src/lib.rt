// How long an order's text and a signature are, and what stands where in a signature.
#![tactic(auto)]

ghost use Rattle.std.specs.Prelude.{◌≡◌, ◌≤◌, length};
ghost use Rattle.signature.specs.Signature.{outside_text, signature_length, leaf_in, random_in};

use octets::{array_at, front_word};
use profile::Profile;

// Whether a message is empty or over 200 bytes.
#[tactic(auto, unfolding(crate::specs::Signature::outside_text))]
pub fn outside_text(bytes: usize) -> bool
    ensures { result ≡ outside_text bytes }
{
    !(1..=200).contains(&bytes)
}

// How long a signature is.
#[tactic(auto, unfolding(crate::specs::Signature::signature_length))]
pub fn signature_length(p: Profile) -> usize
    ensures { result ≡ signature_length p }
{
    20 + 16 * p.shape.chains as usize + 16 * p.height as usize
}

// The leaf that a signature names.
#[tactic(auto, unfolding(crate::specs::Signature::leaf_in))]
pub fn leaf_in(signature: &[u8]) -> u32
    ensures { result ≡ leaf_in signature.now }
{
    front_word(signature)
}

// The R that a signature carries.
#[tactic(auto, unfolding(crate::specs::Signature::random_in))]
pub fn random_in(signature: &[u8]) -> [u8; 16]
    requires { 20 ≤ length signature.now }
    ensures { result ≡ random_in signature.now }
{
    array_at(signature, 4)
}
