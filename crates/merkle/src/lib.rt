// Hash trees over any leaves of 16 bytes: a node from its children, and the climb from a leaf along siblings.
#![tactic(auto)]

ghost use Rattle.std.specs.Prelude.{◌≡◌, ◌*◌, ◌^◌, ◌≤◌, ◌<◌, length};
ghost use Rattle.merkle.specs.Nodes.{parent_of, sibling as siblingOf, climbed_once, climbed};

use octets::array_at;
use tweak::{Hasher, absorb, begin, end, node_address};

// The hash of two children, by the height and index of the node made. What it is hashed in is not on the stack while the nodes below
// it are made.
#[inline(never)]
pub fn parent(hasher: Hasher, height: u32, index: u32, left: [u8; 16], right: [u8; 16]) -> [u8; 16]
    ensures { result ≡ parent_of hasher.domain height index left right }
{
    let mut hash = begin(hasher, node_address(hasher.domain, height, index));
    absorb(&mut hash, left);
    absorb(&mut hash, right);
    end(hash)
}

// The other child of the same node.
pub fn sibling(index: u32) -> u32
    requires { index < 2 ^ 31 }
    ensures { result ≡ siblingOf index }
{
    if index % 2 == 0 { index + 1 } else { index - 1 }
}

// One step of the climb: from a node and its sibling to the node above, which has the height `height`.
fn climb_once(hasher: Hasher, height: u32, index: u32, own: [u8; 16], other: [u8; 16]) -> [u8; 16]
    ensures { result ≡ climbed_once hasher.domain height index own other }
{
    if index % 2 == 0 {
        parent(hasher, height, index / 2, own, other)
    } else {
        parent(hasher, height, index / 2, other, own)
    }
}

// The climb from a leaf's value along siblings, from the bottom.
pub fn climb_path(
    hasher: Hasher,
    leaf: u32,
    key: [u8; 16],
    height: u32,
    siblings: &[u8],
) -> [u8; 16]
    requires { 16 * height ≤ length siblings.now }
    ensures { result ≡ climbed hasher.domain leaf key siblings.now height }
{
    let mut value = key;
    let mut index = leaf;
    for k in 0..height {
        let other = array_at(siblings, 16 * (k as usize));
        // Named before it is assigned: no proof is written of a call that lays an array into a variable of the loop.
        let above = climb_once(hasher, k + 1, index, value, other);
        value = above;
        index /= 2;
    }
    value
}
