// The chains of one leaf: its key, the values that a signature shows, and the key from these.
ghost use Rattle.std.specs.Prelude.{◌≡◌, ◌++◌, ◌+◌, ◌*◌, ◌≤◌, length, take, drop};
ghost use Rattle.chains.specs.Leaves.{revealed, leaf_key, recovered, steps_left};

use super::LimitedChains;
use super::steps::{Walked, chain_value, walk};
use octets::{array_at, copy};
use tweak::{Chain, Hasher, Leaf, absorb, begin, end, leaf_key_address};

// The leaf key. Each top goes into the hash as it is made.
pub fn key_of_leaf(
    hasher: Hasher,
    limited: LimitedChains,
    secret: &[u8; 16],
    leaf: Leaf,
) -> [u8; 16]
    ensures { result ≡ leaf_key hasher.domain limited.chains secret.now leaf.0 }
{
    let chains = limited.chains;
    let mut hash = begin(hasher, leaf_key_address(hasher.domain, leaf));
    for c in 0..chains.count {
        let top = chain_value(hasher, leaf, Chain(c), secret, chains.width - 1);
        absorb(&mut hash, top);
    }
    end(hash)
}

// Writes the values that a row shows, from index `at` on. Without a heap, a row has room for the 40 lengths of the longest profile.
// The secret stands apart from the hasher and the chains, which a cabinet has too: as one value they would be taken apart in each
// function and clause.
pub fn write_values(
    hasher: Hasher,
    limited: LimitedChains,
    secret: &[u8; 16],
    leaf: Leaf,
    row: [u8; 40],
    out: &mut [u8],
    at: usize,
)
    requires { at + 16 * limited.chains.count ≤ length out.old }
    ensures { out.new ≡ take at out.old ++ revealed hasher.domain limited.chains secret.now leaf.0 row
        ++ drop (at + 16 * limited.chains.count) out.old }
{
    for c in 0..limited.chains.count {
        let height = u32::from(row[c as usize]);
        let value = chain_value(hasher, leaf, Chain(c), secret, height);
        copy(&value, out, at + 16 * (c as usize));
    }
}

// The leaf key from the values, and the steps made, those of each chain added up.
pub fn recover_key(
    hasher: Hasher,
    limited: LimitedChains,
    leaf: Leaf,
    row: [u8; 40],
    values: &[u8],
) -> Walked
    requires { 16 * limited.chains.count ≤ length values.now }
    ensures value { result.value ≡ recovered hasher.domain limited.chains leaf.0 row values.now }
    ensures steps { result.steps ≡ steps_left limited.chains row }
{
    let chains = limited.chains;
    let mut hash = begin(hasher, leaf_key_address(hasher.domain, leaf));
    let mut steps = 0;
    for c in 0..chains.count {
        let height = u32::from(row[c as usize]);
        let value = array_at(values, 16 * (c as usize));
        let walked = walk(hasher, leaf, Chain(c), height, chains.width - 1, value);
        absorb(&mut hash, walked.value);
        steps += walked.steps;
    }
    Walked {
        value: end(hash),
        steps,
    }
}
