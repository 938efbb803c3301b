// The checking cabinet: Check.
#![tactic(auto)]

ghost use Rattle.std.specs.Prelude.{◌≡◌, false, ◌≤◌, IfOk, length, take};
ghost use Rattle.refusal.specs.Code.{outcome_code, first_cause};
ghost use Rattle.numbers.specs.Number.{value};
ghost use Rattle.signature.specs.Signature.{signature_length, leaf_in, values_in, siblings_in};
ghost use Rattle.counts.specs.Counts as counts;
ghost use Rattle.counts.specs.Table.{Holds};
ghost use Rattle.tweak.specs.Tweak.{first_domain};
ghost use Rattle.chains.specs.Leaves.{chains_of, steps_left};
ghost use Rattle.tree.specs.Tree.{recovered_root};
ghost use Rattle.message.specs.Message.{count_too_small};
ghost use Rattle.verifier.specs.Verifying.{number_in, row_in};
ghost use Rattle.verifier.specs.Operations.{verify_causes, Verifies};
ghost use Rattle.verifier.specs.inner.Judging.{Fills, Ready, Judges, JudgesBehind};

use chains::limited_chains;
use chains::steps::Walked;
use codewords::unranking::write_codeword;
use counts::table::{check_table, fill};
use message::{count_too_small, message_number};
use profile::{LimitedShape, Profile, leaf_beyond};
use refusal::{Refusal, refuse_if};
use signature::{leaf_in, outside_text, random_in, signature_length};
use tweak::first_hasher;
use window::Window;

// A cabinet (document 01; document 02, point 4): its profile, the public seed, the root, and the window over the leaves that
// it has accepted.
#[derive(Clone, Copy)]
pub struct Verifier {
    pub profile: Profile,
    pub seed: [u8; 16],
    pub root: [u8; 16],
    pub window: Window,
}

// What Check answers, and the chain steps made, which are made for 15 too.
#[derive(Clone, Copy)]
pub struct Verdict {
    pub outcome: Result<(), Refusal>,
    pub steps: u32,
}

// The message number, with the signature's leaf and R and the cabinet's root, for the count of the cabinet's profile.
#[tactic(auto, unfolding(crate::specs::Verifying::number_in))]
fn number_in(v: &Verifier, count: [u32; 5], message: &[u8], signature: &[u8]) -> [u32; 5]
    requires count_value { value count ≡ counts.count v.now.profile.shape }
    requires message_len_bound { (length message.now ≤ 200) × (20 ≤ length signature.now) }
    ensures { value result ≡ number_in v.now message.now signature.now }
{
    let leaf = leaf_in(signature);
    let r = random_in(signature);
    message_number(v.profile, count, leaf, r, v.seed, v.root, message)
}

// The row of that number, in front of zeros, from a table that is filled; the count is not too small. The signature may be
// without its siblings.
#[tactic(auto, using(crate::proofs::Answers::number_in_fits))]
pub fn row_in(
    v: &Verifier,
    limited: LimitedShape,
    count: [u32; 5],
    message: &[u8],
    signature: &[u8],
    table: &[u32],
) -> [u8; 40]
    requires same_shape { limited.shape ≡ v.now.profile.shape }
    requires holds { Holds v.now.profile.shape table.now }
    requires count_value { (value count ≡ counts.count v.now.profile.shape)
        × (count_too_small (counts.count v.now.profile.shape) ≡ false) }
    requires message_len_bound { (length message.now ≤ 200) × (20 ≤ length signature.now) }
    ensures { take v.now.profile.shape.chains result ≡ row_in v.now message.now signature.now }
{
    let number = number_in(v, count, message, signature);
    let mut row = [0u8; 40];
    write_codeword(limited, number, table, &mut row);
    row
}

// The causes of Check between 5 and 19 for one order. A signature of the wrong length is refused before its leaf counts.
pub fn check_order(v: &Verifier, text: usize, signature: &[u8]) -> Result<(), Refusal>
    ensures { outcome_code result ≡ first_cause (verify_causes v.now text signature.now) }
{
    let leaf = leaf_in(signature);
    refuse_if(outside_text(text), Refusal::MessageLength)?;
    refuse_if(
        signature.len() != signature_length(v.profile),
        Refusal::SignatureLength,
    )?;
    refuse_if(leaf_beyond(v.profile.height, leaf), Refusal::LeafOutOfRange)?;
    refuse_if(v.window.passed(leaf), Refusal::LeafPassed)
}

// The root that a signature leads to under the cabinet's seed, with the codeword in a row, and the chain steps made.
fn recover_root(
    v: &Verifier,
    limited: LimitedShape,
    leaf: u32,
    row: [u8; 40],
    signature: &[u8],
) -> Walked
    requires same_shape { limited.shape ≡ v.now.profile.shape }
    requires long { (v.now.profile.height ≤ 10) × (length signature.now ≡ signature_length v.now.profile) }
    ensures root { result.value ≡ recovered_root (first_domain v.now.seed) (chains_of v.now.profile.shape) v.now.profile.height leaf row
        (values_in v.now.profile signature.now) (siblings_in v.now.profile signature.now) }
    ensures steps { result.steps ≡ steps_left (chains_of v.now.profile.shape) row }
{
    let p = v.profile;
    let at = 20 + 16 * p.shape.chains as usize;
    let values = &signature[20..at];
    let siblings = &signature[at..];
    tree::recover_root(
        first_hasher(v.seed),
        limited_chains(limited),
        p.height,
        leaf,
        row,
        values,
        siblings,
    )
}

// The causes before the table, then the table, and its count.
fn fill_checked(
    v: &Verifier,
    message: &[u8],
    signature: &[u8],
    table: &mut [u32],
) -> Result<[u32; 5], Refusal>
    ensures { Fills v.now message.now signature.now table.old table.new result }
{
    check_table(v.profile, table.len())?;
    check_order(v, message.len(), signature)?;
    let limited = LimitedShape {
        shape: v.profile.shape,
    };
    Ok(fill(limited, table))
}

// Judges one order past the causes before the table, which is filled: 19 by the count, 15 by the root that the signature
// leads to. A cabinet that accepts has taken the leaf.
fn judge_order(
    v: &mut Verifier,
    count: [u32; 5],
    message: &[u8],
    signature: &[u8],
    table: &[u32],
) -> Verdict
    requires { Ready v.old count message.now signature.now table.now }
    ensures { Judges v.old message.now signature.now v.new result }
{
    if count_too_small(count) {
        return Verdict {
            outcome: Err(Refusal::CountTooSmall),
            steps: 0,
        };
    }
    let limited = LimitedShape {
        shape: v.profile.shape,
    };
    let row = row_in(v, limited, count, message, signature, table);
    let leaf = leaf_in(signature);
    let found = recover_root(v, limited, leaf, row, signature);
    let outcome = refuse_if(found.value != v.root, Refusal::RootDiffers);
    if outcome.is_ok() {
        v.window = v.window.take(leaf);
    }
    Verdict {
        outcome,
        steps: found.steps,
    }
}

// Judges one order behind what the causes before the table answered, with the count of the table that is filled where none of them
// holds. Refused by them, the cabinet is as it was.
pub fn judge(
    early: Result<[u32; 5], Refusal>,
    v: &mut Verifier,
    message: &[u8],
    signature: &[u8],
    table: &[u32],
) -> Verdict
    requires { IfOk early (λ count. Ready v.old count message.now signature.now table.now) }
    ensures { JudgesBehind early v.old message.now signature.now v.new result }
{
    match early {
        Ok(count) => judge_order(v, count, message, signature, table),
        Err(refusal) => Verdict {
            outcome: Err(refusal),
            steps: 0,
        },
    }
}

// Check: whether the signature of the message leads to the cabinet's root.
pub fn verify(v: &mut Verifier, message: &[u8], signature: &[u8], table: &mut [u32]) -> Verdict
    ensures { Verifies v.old
        (record { message = message.entry.now; signature = signature.now; work = table.old })
        table.new v.new result }
{
    let early = fill_checked(v, message, signature, table);
    judge(early, v, message, signature, table)
}
