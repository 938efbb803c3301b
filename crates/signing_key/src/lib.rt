// A key, the counter of its leaves, and Reserve.
#![tactic(auto)]

ghost use Rattle.std.specs.Prelude.{◌≡◌, ◌^◌, ◌<◌};
ghost use Rattle.refusal.specs.Code.{outcome_code};
ghost use Rattle.signing_key.specs.Counter as spec;
ghost use Rattle.signing_key.specs.Key.{restarted_key};
ghost use Rattle.signing_key.specs.Operations.{Reserves};

use profile::{Profile, check_profile, leaf_count};
use refusal::{Refusal, refuse_if};

// What of a key counts its leaves: the next one, and a mark, which says that the one before it is reserved for a signature. The mark
// is a flag and no Option, since one that does not count comes back as it came (`counter_after`).
#[derive(Clone, Copy)]
pub struct Counter {
    pub next: u32,
    pub mark: bool,
}

// A key (document 01): its profile, both seeds, and the counter of its leaves.
#[derive(Clone, Copy)]
pub struct SigningKey {
    pub profile: Profile,
    pub seed: [u8; 16],
    pub secret: [u8; 16],
    pub counter: Counter,
}

// Whether a leaf is reserved: there is a mark, and it counts.
#[tactic(auto, unfolding(crate::specs::Counter::mark_counts))]
fn mark_counts(leaves: u64, c: Counter) -> bool
    ensures { result ≡ spec.mark_counts leaves c }
{
    c.mark && 1 <= c.next && u64::from(c.next) <= leaves
}

// Whether a leaf of a profile's tree is reserved.
pub fn mark_stands(p: Profile, c: Counter) -> bool
    ensures { result ≡ spec.mark_counts (2 ^ p.height) c }
{
    mark_counts(leaf_count(p.height), c)
}

// Whether no leaf is left.
#[tactic(auto, unfolding(crate::specs::Counter::spent))]
fn spent(leaves: u64, c: Counter) -> bool
    ensures { result ≡ spec.spent leaves c }
{
    leaves <= u64::from(c.next)
}

// Reserve over a number of leaves, behind what a key's checks answered: refused there, for 21 or for 12, the counter is as it was.
#[tactic(auto, unfolding(crate::specs::Counter::counter_after, crate::specs::Counter::counter_code, crate::specs::Counter::spent))]
pub fn reserve_leaf(
    checked: Result<(), Refusal>,
    leaves: u64,
    counter: &mut Counter,
) -> Result<(), Refusal>
    requires { outcome_code checked ≡ 0 → leaves < 2 ^ 32 }
    ensures { spec.AnswersWith (spec.counter_code (outcome_code checked) leaves counter.old) counter.old counter.new result }
{
    checked?;
    refuse_if(mark_counts(leaves, *counter), Refusal::MarkStands)?;
    refuse_if(spent(leaves, *counter), Refusal::KeySpent)?;
    *counter = Counter {
        next: counter.next + 1,
        mark: true,
    };
    Ok(())
}

// Reserve: marks the next leaf. The key's seeds have no part in it. The desk stores the key before it signs.
pub fn reserve(p: Profile, counter: &mut Counter) -> Result<(), Refusal>
    ensures { Reserves p counter.old counter.new result }
{
    reserve_leaf(check_profile(p), leaf_count(p.height), counter)
}

// The key with which a desk goes on after a restart, from the one that was stored: without a mark, since the stored key
// does not tell whether the marked leaf has signed.
pub fn restart(key: SigningKey) -> SigningKey
    ensures { result ≡ restarted_key key }
{
    SigningKey {
        counter: Counter {
            mark: false,
            ..key.counter
        },
        ..key
    }
}
