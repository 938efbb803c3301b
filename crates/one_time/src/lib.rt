// The one-time signatures of a leaf: Leaf key, Reveal and Recover.
#![tactic(auto)]

ghost use Rattle.std.specs.Prelude.{◌≡◌, false};
ghost use Rattle.refusal.specs.Code.{code, outcome_code, first_cause};
ghost use Rattle.numbers.specs.Number.{value};
ghost use Rattle.counts.specs.Table.{leaves_table};
ghost use Rattle.one_time.specs.Operations.{LeafKeys, own_causes, Reveals, Recovers};
ghost use Rattle.one_time.specs.inner.Placing.{Places};

use chains::leaves::{key_of_leaf, recover_key, write_values};
use chains::limited_chains;
use chains::steps::Walked;
use codewords::unranking::place;
use counts::table::{check_table, fill};
use profile::{LimitedShape, Profile, check_profile, leaf_beyond};
use refusal::{Refusal, refuse_if};
use tweak::{Leaf, first_hasher};

// The causes of Reveal and Recover between 5 and 7: `size` where the size of the values is wrong, and 11. The test and its cause are
// two, as in `own_causes`.
fn check_own(p: Profile, leaf: u32, wrong: bool, size: Refusal) -> Result<(), Refusal>
    ensures { outcome_code result ≡ first_cause (own_causes p.height leaf wrong (code size)) }
{
    refuse_if(wrong, size)?;
    refuse_if(leaf_beyond(p.height, leaf), Refusal::LeafOutOfRange)
}

// What Reveal and Recover share, which differ in the refusal of a wrong size: every cause, and where none holds the
// codeword of the number at the front of a row.
fn row_of_number(
    p: Profile,
    leaf: u32,
    number: [u32; 5],
    wrong: bool,
    size: Refusal,
    table: &mut [u32],
) -> Result<[u8; 40], Refusal>
    requires { leaves_table (code size) ≡ false }
    ensures { Places p leaf (value number) wrong (code size) table.old table.new result }
{
    check_table(p, table.len())?;
    check_own(p, leaf, wrong, size)?;
    let limited = LimitedShape { shape: p.shape };
    let count = fill(limited, table);
    let mut row = [0u8; 40];
    place(limited, number, count, table, &mut row)?;
    Ok(row)
}

// Leaf key.
pub fn leaf_key(
    p: Profile,
    seed: [u8; 16],
    secret: &[u8; 16],
    leaf: u32,
) -> Result<[u8; 16], Refusal>
    ensures { LeafKeys p seed secret.now leaf result }
{
    check_profile(p)?;
    refuse_if(leaf_beyond(p.height, leaf), Refusal::LeafOutOfRange)?;
    let limited = LimitedShape { shape: p.shape };
    Ok(key_of_leaf(
        first_hasher(seed),
        limited_chains(limited),
        secret,
        Leaf(leaf),
    ))
}

// Reveal: the values that the codeword of the number shows, into the first bytes of `values`.
pub fn one_time_sign(
    p: Profile,
    seed: [u8; 16],
    secret: &[u8; 16],
    leaf: u32,
    number: [u32; 5],
    table: &mut [u32],
    values: &mut [u8],
) -> Result<(), Refusal>
    ensures { Reveals p seed secret.now leaf (value number)
        table.old values.old table.new values.new result }
{
    let short = values.len() < 16 * p.shape.chains as usize;
    let row = row_of_number(p, leaf, number, short, Refusal::OutputTooShort, table)?;
    let hasher = first_hasher(seed);
    let limited = LimitedShape { shape: p.shape };
    let chains = limited_chains(limited);
    write_values(hasher, chains, secret, Leaf(leaf), row, values, 0);
    Ok(())
}

// Recover: the leaf key from the values that the codeword of the number shows, and the steps made.
pub fn one_time_recover(
    p: Profile,
    seed: [u8; 16],
    leaf: u32,
    number: [u32; 5],
    values: &[u8],
    table: &mut [u32],
) -> Result<Walked, Refusal>
    ensures { Recovers p seed leaf (value number) values.now table.old table.new result }
{
    let other = values.len() != 16 * p.shape.chains as usize;
    let row = row_of_number(p, leaf, number, other, Refusal::SignatureLength, table)?;
    let hasher = first_hasher(seed);
    let limited = LimitedShape { shape: p.shape };
    let chains = limited_chains(limited);
    Ok(recover_key(hasher, chains, Leaf(leaf), row, values))
}
