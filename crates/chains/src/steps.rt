// The values of a chain: its start, a step, the walk from one height to another, and the value at a height.
ghost use Rattle.std.specs.Prelude.{◌≡◌, ◌-◌};
ghost use Rattle.tweak.specs.Tweak.{chain_step_address, tweaked_hash};
ghost use Rattle.chains.specs.Chains.{chain_head, walked, chain_value};

use tweak::{Chain, Hasher, Height, Leaf, chain_start_address, chain_step_address, tweaked_hash};

// The value at height 0, from the secret seed.
#[tactic(auto, unfolding(crate::specs::Chains::chain_head))]
fn chain_start(hasher: Hasher, leaf: Leaf, chain: Chain, secret: &[u8; 16]) -> [u8; 16]
    ensures { result ≡ chain_head hasher.domain leaf.0 chain.0 secret.now }
{
    let address = chain_start_address(hasher.domain, leaf, chain);
    tweaked_hash(hasher, address, *secret)
}

// One step, by the height before it.
fn chain_step(hasher: Hasher, leaf: Leaf, chain: Chain, height: Height, value: [u8; 16]) -> [u8; 16]
    ensures { result ≡ tweaked_hash hasher.domain (chain_step_address hasher.domain leaf.0 chain.0 height.0) value }
{
    let address = chain_step_address(hasher.domain, leaf, chain, height);
    tweaked_hash(hasher, address, value)
}

// A value, and the steps that led to it.
#[derive(Clone, Copy)]
pub struct Walked {
    pub value: [u8; 16],
    pub steps: u32,
}

// The steps from one height up to another, counted one by one.
pub fn walk(
    hasher: Hasher,
    leaf: Leaf,
    chain: Chain,
    low: u32,
    high: u32,
    value: [u8; 16],
) -> Walked
    ensures value { result.value ≡ walked hasher.domain leaf.0 chain.0 low (high - low) value }
    ensures steps { result.steps ≡ high - low }
{
    let mut walked = Walked { value, steps: 0 };
    for k in low..high {
        walked = Walked {
            value: chain_step(hasher, leaf, chain, Height(k), walked.value),
            steps: walked.steps + 1,
        };
    }
    walked
}

// The value of a chain at a height, from the secret seed.
pub fn chain_value(
    hasher: Hasher,
    leaf: Leaf,
    chain: Chain,
    secret: &[u8; 16],
    height: u32,
) -> [u8; 16]
    ensures { result ≡ chain_value hasher.domain secret.now leaf.0 chain.0 height }
{
    let start = chain_start(hasher, leaf, chain, secret);
    walk(hasher, leaf, chain, 0, height, start).value
}
