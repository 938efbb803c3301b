// Hash chains, and the chains of one leaf.
#![tactic(auto)]

ghost use Rattle.std.specs.Prelude.{◌≡◌, ◌≤◌};
ghost use Rattle.chains.specs.Leaves.{chains_of};

use profile::{LimitedShape, Shape};

pub mod leaves;
pub mod steps;

// The chains of a leaf (document 01: l chains of width w): how many, and the number of heights of each.
#[derive(Clone, Copy)]
pub struct Chains {
    pub count: u32,
    pub width: u32,
}

// Chains within a profile's limits.
#[derive(Clone, Copy)]
pub struct LimitedChains {
    pub chains: Chains,
    ghost few: { chains.count ≤ 40 },
    ghost some_height: { 1 ≤ chains.width },
    ghost narrow: { chains.width ≤ 16 },
}

// The chains of a shape.
pub fn chains_of(shape: Shape) -> Chains
    ensures { result ≡ chains_of shape }
{
    Chains {
        count: shape.chains,
        width: shape.width,
    }
}

// The chains of a shape within its limits.
pub fn limited_chains(limited: LimitedShape) -> LimitedChains
    ensures { result.chains ≡ chains_of limited.shape }
{
    LimitedChains {
        chains: chains_of(limited.shape),
    }
}
