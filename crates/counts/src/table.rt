// The table of the counts D(i, t), and Count.
ghost use Rattle.std.specs.Prelude.{◌≡◌, ◌++◌, ℕ, ◌+◌, ◌*◌, ◌≤◌, ltb, length, take, drop};
ghost use Rattle.refusal.specs.Code.{outcome_code, first_cause};
ghost use Rattle.numbers.specs.inner.Limbs.{number};
ghost use Rattle.numbers.specs.Number.{to_words};
ghost use Rattle.counts.specs.Counts.{share, D, count};
ghost use Rattle.counts.specs.Table.{rows, table_length, with_table, table_causes};
ghost use Rattle.counts.specs.Operations.{count_causes, Counts};

use super::cells::{load, store};
use numbers::limbs::{Limbs, add, subtract};
use profile::{LimitedShape, Profile, Shape, check_profile, check_shape};
use refusal::{Refusal, refuse_if};

// Row 0, whatever the width: one way to have the sum 0, and none to have another.
fn first_row(table: &mut [u32], sum: usize)
    requires { (sum ≤ 600) × (5 * (sum + 1) ≤ length table.old) }
    ensures { (w : ℕ) → table.new ≡ rows w sum 1 ++ drop (5 * (1 * (sum + 1))) table.old }
{
    table[..5 * (sum + 1)].fill(0);
    table[0] = 1;
}

// D(i, t) below row 0, from the row above and the count before it, which is 0 at the row's start: the window of w shares
// moves on by one, so one count comes in and one falls out.
fn cell(table: &[u32], previous: Limbs, width: usize, sum: usize, i: usize, t: usize) -> Limbs
    requires le_width { (1 ≤ width) × (width ≤ 16) × (1 ≤ i) × (i ≤ 40) × (t ≤ sum) × (sum ≤ 600) }
    requires table_value { take (5 * (i * (sum + 1))) table.now ≡ rows width sum i }
    requires sum_in_bounds { 5 * (i * (sum + 1)) ≤ length table.now }
    requires previous_value { number previous ≡ share (D width i) t 1 }
    ensures { number result ≡ D width i t }
{
    let above = (i - 1) * (sum + 1) + t;
    let incoming = Limbs::from(load(table, above));
    let grown = add(previous, incoming);
    if t < width {
        return grown;
    }
    let outgoing = Limbs::from(load(table, above - width));
    subtract(grown, outgoing)
}

// Row i, below row 0.
fn fill_row(table: &mut [u32], width: usize, sum: usize, i: usize)
    requires le_width { (1 ≤ width) × (width ≤ 16) × (1 ≤ i) × (i ≤ 40) × (sum ≤ 600) }
    requires table_value { take (5 * (i * (sum + 1))) table.old ≡ rows width sum i }
    requires sum_in_bounds { 5 * ((i + 1) * (sum + 1)) ≤ length table.old }
    ensures { table.new ≡ rows width sum (i + 1) ++ drop (5 * ((i + 1) * (sum + 1))) table.old }
{
    let mut n = Limbs::from([0; 5]);
    for t in 0..sum + 1 {
        n = cell(table, n, width, sum, i, t);
        store(table, i * (sum + 1) + t, <[u32; 5]>::from(n));
    }
}

// Rows 0 to the number of chains.
fn fill_rows(table: &mut [u32], chains: usize, width: usize, sum: usize)
    requires le_width { (1 ≤ width) × (width ≤ 16) × (chains ≤ 40) × (sum ≤ 600) }
    requires sum_in_bounds { 5 * ((chains + 1) * (sum + 1)) ≤ length table.old }
    ensures { table.new ≡ rows width sum (chains + 1) ++ drop (5 * ((chains + 1) * (sum + 1))) table.old }
{
    first_row(table, sum);
    for i in 1..chains + 1 {
        fill_row(table, width, sum, i);
    }
}

// Fills the work slice with the table of a shape, and gives the count, its last number.
pub fn fill(limited: LimitedShape, table: &mut [u32]) -> [u32; 5]
    requires { table_length limited.shape ≤ length table.old }
    ensures { (result ≡ to_words 5 (count limited.shape)) × (table.new ≡ with_table limited.shape table.old) }
{
    let chains = limited.shape.chains as usize;
    let sum = limited.shape.sum as usize;
    fill_rows(table, chains, limited.shape.width as usize, sum);
    load(table, chains * (sum + 1) + sum)
}

// Whether so many words are too few for the table of a shape, which may be any: the product of its sizes needs not fit.
pub fn no_room(shape: Shape, words: usize) -> bool
    ensures { result ≡ ltb words (table_length shape) }
{
    words / 5 / (shape.chains as usize + 1) <= shape.sum as usize
}

// The causes of Count.
pub fn check_count(shape: Shape, words: usize) -> Result<(), Refusal>
    ensures { outcome_code result ≡ first_cause (count_causes shape words) }
{
    check_shape(shape)?;
    refuse_if(no_room(shape, words), Refusal::TableTooShort)
}

// The causes of a profile, with room for its table. A trait over shapes and profiles would have these two impls and no other use.
pub fn check_table(p: Profile, words: usize) -> Result<(), Refusal>
    ensures { outcome_code result ≡ first_cause (table_causes p words) }
{
    check_profile(p)?;
    refuse_if(no_room(p.shape, words), Refusal::TableTooShort)
}

// Count: fills the work slice with the table and gives the number of codewords.
pub fn codeword_count(shape: Shape, table: &mut [u32]) -> Result<[u32; 5], Refusal>
    ensures { Counts shape table.old table.new result }
{
    check_count(shape, table.len())?;
    let limited = LimitedShape { shape };
    Ok(fill(limited, table))
}
