// Gather: the number of a codeword.
ghost use Rattle.std.specs.Prelude.{◌≡◌, ◌+◌, ◌-◌, ◌*◌, ◌^◌, ◌≤◌, ◌<◌, length, take, drop};
ghost use Rattle.refusal.specs.Code.{outcome_code, first_cause};
ghost use Rattle.numbers.specs.Number.{value, to_words};
ghost use Rattle.counts.specs.Counts.{sum_to};
ghost use Rattle.counts.specs.Table.{rows};
ghost use Rattle.codewords.specs.Codeword.{rank as rank_of, total, IsCodeword};
ghost use Rattle.codewords.specs.Operations.{some_above, row_causes, Ranks};

use counts::cells::load;
use counts::table::{check_count, fill};
use numbers::number::add;
use profile::{LimitedShape, Shape};
use refusal::{Refusal, refuse_if};

// Whether a length is above w - 1.
fn some_above(width: usize, row: &[u8]) -> bool
    ensures { result ≡ some_above width row.now }
{
    row.iter().any(|length| width <= usize::from(*length))
}

// The sum of the lengths.
fn sum_of(row: &[u8]) -> u64
    requires { length row.now < 2 ^ 32 }
    ensures { result ≡ total row.now }
{
    row.iter().map(|length| u64::from(*length)).sum()
}

// The causes of Gather that look at the row.
fn check_row(shape: Shape, row: &[u8]) -> Result<(), Refusal>
    ensures { outcome_code result ≡ first_cause (row_causes shape row.now) }
{
    refuse_if(row.len() != shape.chains as usize, Refusal::CodewordLength)?;
    refuse_if(
        some_above(shape.width as usize, row),
        Refusal::DigitTooLarge,
    )?;
    refuse_if(sum_of(row) != u64::from(shape.sum), Refusal::CodewordSum)
}

// The number with the shares of the lengths below a digit added: those counts are skipped. The share of the length j is the
// number at `above` - j of the table.
fn skip(table: &[u32], number: [u32; 5], above: usize, digit: usize) -> [u32; 5]
    requires number_value { (number ≡ to_words 5 (value number)) × (digit ≤ above) × (5 * above + 5 ≤ length table.now) }
    requires digit_bound { value number + sum_to (λ j. value (take 5 (drop (5 * (above - j)) table.now))) digit < 2 ^ 160 }
    ensures { result ≡ to_words 5 (value number + sum_to (λ j. value (take 5 (drop (5 * (above - j)) table.now))) digit) }
{
    let mut n = number;
    for j in 0..digit {
        // In two steps: `n = add(n, ..)` is not proved, since the array would be read and written in one call.
        let sum = add(n, load(table, above - j));
        n = sum;
    }
    n
}

// The number of a codeword.
fn number_of(table: &[u32], row: &[u8], width: usize, sum: usize) -> [u32; 5]
    requires le_width { (1 ≤ width) × (width ≤ 16) × (length row.now ≤ 40) × (sum ≤ 600) }
    requires codeword { IsCodeword width (length row.now) sum row.now }
    requires table_value { take (5 * ((length row.now + 1) * (sum + 1))) table.now ≡ rows width sum (length row.now + 1) }
    ensures { result ≡ to_words 5 (rank_of width sum row.now) }
{
    let mut n = [0u32; 5];
    let mut left = sum;
    for (place, length) in row.iter().enumerate() {
        let digit = usize::from(*length);
        let above = (row.len() - 1 - place) * (sum + 1) + left;
        // In two steps, as in `skip`.
        let next = skip(table, n, above, digit);
        n = next;
        left -= digit;
    }
    n
}

// Gather: the number of the codeword in the row.
pub fn rank(shape: Shape, row: &[u8], table: &mut [u32]) -> Result<[u32; 5], Refusal>
    ensures { Ranks shape row.now table.old table.new result }
{
    check_count(shape, table.len())?;
    check_row(shape, row)?;
    let limited = LimitedShape { shape };
    fill(limited, table);
    Ok(number_of(table, row, shape.width as usize, shape.sum as usize))
}
