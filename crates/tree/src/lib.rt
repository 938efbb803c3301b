// The tree over the leaf keys: nodes, the way up from a leaf, the root from what a signature shows, and Root.
#![tactic(auto)]

ghost use Rattle.std.specs.Prelude.{◌≡◌, ◌++◌, ◌+◌, ◌-◌, ◌*◌, ◌^◌, ◌≤◌, ◌<◌, length, take, drop};
ghost use Rattle.chains.specs.Leaves.{leaf_key, steps_left};
ghost use Rattle.merkle.specs.Nodes.{node as nodeAt};
ghost use Rattle.tree.specs.Tree.{root_at, siblings_of, recovered_root};
ghost use Rattle.tree.specs.Operations.{Roots};

use chains::leaves::{key_of_leaf, recover_key};
use chains::steps::Walked;
use chains::{LimitedChains, limited_chains};
use merkle::{climb_path, parent, sibling};
use octets::copy;
use profile::{LimitedShape, Profile, check_profile};
use refusal::Refusal;
use tweak::{Hasher, Leaf, first_hasher};

// The siblings on the way up from a leaf, from the bottom, and the root above them. A tree has at most ten heights, for
// which there is room without a heap.
#[derive(Clone, Copy)]
pub struct Way {
    pub siblings: [u8; 160],
    pub root: [u8; 16],
}

// A node of any height: each leaf below it is hashed once, and the calls in progress hold one value a height.
pub fn node(
    hasher: Hasher,
    limited: LimitedChains,
    secret: &[u8; 16],
    height: u32,
    index: u32,
) -> [u8; 16]
    requires low { height ≤ 31 }
    requires index_within { index < 2 ^ (31 - height) }
    ensures { result ≡ nodeAt hasher.domain (leaf_key hasher.domain limited.chains secret.now) height index }
{
    if height == 0 {
        return key_of_leaf(hasher, limited, secret, Leaf(index));
    }
    let below = height - 1;
    let left = node(hasher, limited, secret, below, 2 * index);
    let right = node(hasher, limited, secret, below, 2 * index + 1);
    parent(hasher, height, index, left, right)
}

// The siblings of the nodes from a leaf up to below the root, from the bottom. A height and a slice with room for it: the slice may
// be longer, as a caller's is.
pub fn write_path(
    hasher: Hasher,
    limited: LimitedChains,
    secret: &[u8; 16],
    height: u32,
    leaf: u32,
    out: &mut [u8],
)
    requires low { height ≤ 31 }
    requires leaf_within { leaf < 2 ^ height }
    requires room { 16 * height ≤ length out.old }
    ensures { out.new ≡ siblings_of hasher.domain limited.chains secret.now height leaf
        ++ drop (16 * height) out.old }
{
    let mut index = leaf;
    for k in 0..height {
        let value = node(hasher, limited, secret, k, sibling(index));
        copy(&value, out, 16 * (k as usize));
        index /= 2;
    }
}

// The way up from a leaf. Each leaf is hashed once: the siblings cover all other leaves, and the root is climbed from them.
pub fn way_up(
    hasher: Hasher,
    limited: LimitedChains,
    secret: &[u8; 16],
    height: u32,
    leaf: u32,
) -> Way
    requires low { height ≤ 10 }
    requires leaf_within { leaf < 2 ^ height }
    ensures siblings { take (16 * height) result.siblings ≡ siblings_of hasher.domain limited.chains secret.now height leaf }
    ensures root { result.root ≡ root_at hasher.domain limited.chains secret.now height }
{
    let mut siblings = [0u8; 160];
    write_path(hasher, limited, secret, height, leaf, &mut siblings);
    let own = key_of_leaf(hasher, limited, secret, Leaf(leaf));
    let root = climb_path(hasher, leaf, own, height, &siblings);
    Way { siblings, root }
}

// The root above the leaf key that the values under a row give, along the siblings.
pub fn recover_root(
    hasher: Hasher,
    limited: LimitedChains,
    height: u32,
    leaf: u32,
    row: [u8; 40],
    values: &[u8],
    siblings: &[u8],
) -> Walked
    requires all_values { 16 * limited.chains.count ≤ length values.now }
    requires all_siblings { 16 * height ≤ length siblings.now }
    ensures value { result.value ≡ recovered_root hasher.domain limited.chains height leaf row values.now siblings.now }
    ensures steps { result.steps ≡ steps_left limited.chains row }
{
    let found = recover_key(hasher, limited, Leaf(leaf), row, values);
    Walked {
        value: climb_path(hasher, leaf, found.value, height, siblings),
        ..found
    }
}

// Root.
pub fn root(p: Profile, seed: [u8; 16], secret: &[u8; 16]) -> Result<[u8; 16], Refusal>
    ensures { Roots p seed secret.now result }
{
    check_profile(p)?;
    let limited = LimitedShape { shape: p.shape };
    Ok(node(
        first_hasher(seed),
        limited_chains(limited),
        secret,
        p.height,
        0,
    ))
}
