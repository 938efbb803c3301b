// A profile and its checks.
#![tactic(auto)]

ghost use Rattle.std.specs.Prelude.{◌≡◌, ◌-◌, ◌*◌};
ghost use Rattle.refusal.specs.Code.{outcome_code, first_cause};
ghost use Rattle.profile.specs.Checks.{outside as outsideOf, shape_causes, profile_causes, leaf_beyond, counted_leaves};

mod limited;

pub use limited::LimitedShape;
use refusal::{Refusal, refuse_if};

// The shape of a codeword (document 01: a row of lengths): l chains, lengths below the width w, the sum s.
#[derive(Clone, Copy)]
pub struct Shape {
    pub chains: u32,
    pub width: u32,
    pub sum: u32,
}

// A shape, the height h of the tree, and the edition, 1 or 2 (document 02, point 6): a number and no enum, since a caller hands in
// any, and `profile_causes` refuses by 22 what is neither.
#[derive(Clone, Copy)]
pub struct Profile {
    pub shape: Shape,
    pub height: u32,
    pub edition: u32,
}

// Whether a number is below the low limit or above the high one.
fn outside(low: u64, high: u64, x: u64) -> bool
    ensures { result ≡ outsideOf low high x }
{
    x < low || high < x
}

// The largest sum that l lengths below w have: l × (w - 1).
fn largest_sum(chains: u32, width: u32) -> u64
    ensures { result ≡ chains * (width - 1) }
{
    u64::from(chains) * u64::from(width.saturating_sub(1))
}

// The checks 1, 2 and 3.
#[tactic(auto, unfolding(crate::specs::Checks::shape_causes))]
pub fn check_shape(shape: Shape) -> Result<(), Refusal>
    ensures { outcome_code result ≡ first_cause (shape_causes shape) }
{
    let most = largest_sum(shape.chains, shape.width);
    refuse_if(outside(1, 40, u64::from(shape.chains)), Refusal::ChainCount)?;
    refuse_if(outside(2, 16, u64::from(shape.width)), Refusal::Width)?;
    refuse_if(outside(0, most, u64::from(shape.sum)), Refusal::Sum)
}

// The checks 1, 2, 3 and 4, and then 22.
pub fn check_profile(p: Profile) -> Result<(), Refusal>
    ensures { outcome_code result ≡ first_cause (profile_causes p) }
{
    check_shape(p.shape)?;
    refuse_if(outside(0, 10, u64::from(p.height)), Refusal::Height)?;
    refuse_if(outside(1, 2, u64::from(p.edition)), Refusal::Edition)
}

// How many leaves a tree has, as far as a 32-bit leaf tells: 2^h, and from a height of 32 on room for every one.
pub fn leaf_count(height: u32) -> u64
    ensures { result ≡ counted_leaves height }
{
    if height < 32 { 1 << height } else { 1 << 32 }
}

// Whether a leaf is not below 2^h.
pub fn leaf_beyond(height: u32, leaf: u32) -> bool
    ensures { result ≡ leaf_beyond height leaf }
{
    leaf_count(height) <= u64::from(leaf)
}
