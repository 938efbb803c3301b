// Addresses (FIPS 205) and the tweaked hash.
#![tactic(auto)]

ghost use Rattle.std.specs.Prelude.{◌≡◌, ◌++◌, take};
ghost use Rattle.sha256_block.specs.Compression.{initial as initial_words, compress as compressed};
ghost use Rattle.sha256.specs.Digest.{padding, word_bytes};
ghost use Rattle.sha256.specs.Running.{add_state, finished, hashed};
ghost use Rattle.tweak.specs.Tweak.{first_domain, address as address_of, chain_step_address, leaf_key_address, node_address};
ghost use Rattle.tweak.specs.Tweak.{chain_start_address, seed_block, tweaked_hash};

use octets::{array_at, copy};
use sha256::Hash;
use sha256_block::{HashWords, compress, initial};

// What the hashes of one tree share (FIPS 205: PK.seed and the first two fields of an address).
#[derive(Clone, Copy)]
pub struct Domain {
    pub seed: [u8; 16],
    pub layer: u8,
    pub tree: u64,
}

// A domain with the hash value after its seed's block, which every tweaked hash of the domain goes on from.
#[derive(Clone, Copy)]
pub struct Hasher {
    pub domain: Domain,
    pub words: HashWords,
    ghost after_seed: { words ≡ compressed initial_words (seed_block domain.seed) },
}

// Leaf, chain and height numbers have the same width; each is a type of its own, so that none can stand in another's field.
#[derive(Clone, Copy)]
pub struct Leaf(pub u32);

#[derive(Clone, Copy)]
pub struct Chain(pub u32);

// The height of a place in a chain.
#[derive(Clone, Copy)]
pub struct Height(pub u32);

// The 22 bytes of an address. Its type is the number of FIPS 205: an enum would name once more what each of the functions below
// is named for.
fn address(d: Domain, kind: u8, first: u32, second: u32, third: u32) -> [u8; 22]
    ensures { result ≡ address_of d kind first second third }
{
    let mut bytes = [0u8; 22];
    bytes[0] = d.layer;
    bytes[1..9].copy_from_slice(&d.tree.to_be_bytes());
    bytes[9] = kind;
    bytes[10..14].copy_from_slice(&first.to_be_bytes());
    bytes[14..18].copy_from_slice(&second.to_be_bytes());
    bytes[18..22].copy_from_slice(&third.to_be_bytes());
    bytes
}

// The address of a chain step (type 0), by the height before it.
pub fn chain_step_address(d: Domain, leaf: Leaf, chain: Chain, height: Height) -> [u8; 22]
    ensures { result ≡ chain_step_address d leaf.0 chain.0 height.0 }
{
    address(d, 0, leaf.0, chain.0, height.0)
}

// The address of a leaf key (type 1).
pub fn leaf_key_address(d: Domain, leaf: Leaf) -> [u8; 22]
    ensures { result ≡ leaf_key_address d leaf.0 }
{
    address(d, 1, leaf.0, 0, 0)
}

// The address of a node (type 2), by its own height and its index there.
pub fn node_address(d: Domain, height: u32, index: u32) -> [u8; 22]
    ensures { result ≡ node_address d height index }
{
    address(d, 2, 0, height, index)
}

// The address of a chain's start (type 5).
pub fn chain_start_address(d: Domain, leaf: Leaf, chain: Chain) -> [u8; 22]
    ensures { result ≡ chain_start_address d leaf.0 chain.0 }
{
    address(d, 5, leaf.0, chain.0, 0)
}

// The hasher of a domain: its seed's block is hashed once.
pub fn seeded(domain: Domain) -> Hasher
    ensures { result.domain ≡ domain }
{
    let mut block = [0u8; 64];
    block[..16].copy_from_slice(&domain.seed);
    Hasher {
        domain,
        words: compress(initial(), &block),
    }
}

// The hasher of the layer 0 and the tree 0.
pub fn first_hasher(seed: [u8; 16]) -> Hasher
    ensures { result.domain ≡ first_domain seed }
{
    seeded(Domain {
        seed,
        layer: 0,
        tree: 0,
    })
}

// The running hash of a tweaked hash, before its data.
pub fn begin(hasher: Hasher, address: [u8; 22]) -> Hash
    ensures { result ≡ hashed (seed_block hasher.domain.seed ++ address) }
{
    let hash = Hash {
        words: hasher.words,
        block: [0; 64],
        total: 64,
    };
    hash.add(&address).hash
}

// The running hash after a value more; where that is refused it stays as it is.
pub fn absorb(hash: &mut Hash, value: [u8; 16])
    ensures { hash.new ≡ add_state hash.old value }
{
    *hash = hash.add(&value).hash;
}

// The first 16 bytes of a hash value.
fn front(words: HashWords) -> [u8; 16]
    ensures { result ≡ take 16 (word_bytes words) }
{
    let whole = Hash {
        words,
        block: [0; 64],
        total: 0,
    };
    array_at(&whole.digest(), 0)
}

// The first 16 bytes of the digest.
pub fn end(hash: Hash) -> [u8; 16]
    ensures { result ≡ take 16 (word_bytes (finished hash).words) }
{
    front(hash.finish().words)
}

// The block behind the seed's where the data are one value: the address, the value, and the padding of the 102 bytes, which are 816 bits.
fn last_block(address: [u8; 22], value: [u8; 16]) -> [u8; 64]
    ensures { result ≡ address ++ value ++ padding 102 }
{
    let mut block = [0u8; 64];
    block[38] = 128;
    block[56..].copy_from_slice(&816u64.to_be_bytes());
    copy(&address, &mut block, 0);
    copy(&value, &mut block, 22);
    block
}

// The tweaked hash of one value: one compression.
pub fn tweaked_hash(hasher: Hasher, address: [u8; 22], value: [u8; 16]) -> [u8; 16]
    ensures { result ≡ tweaked_hash hasher.domain address value }
{
    front(compress(hasher.words, &last_block(address, value)))
}
