// Spread: the codeword of a number.
ghost use Rattle.std.specs.Prelude.{◌≡◌, ◌++◌, ◌≤◌, ◌<◌, length, drop};
ghost use Rattle.numbers.specs.Number.{value};
ghost use Rattle.counts.specs.Counts.{count as count_of};
ghost use Rattle.counts.specs.Table.{Holds};
ghost use Rattle.codewords.specs.Operations.{row_of, Unranks};
ghost use Rattle.codewords.specs.inner.Placing.{Placeable, PlacesNumber};

use counts::cells::load;
use counts::table::{check_count, fill};
use numbers::number::{less, subtract};
use profile::{LimitedShape, Shape};
use refusal::{Refusal, refuse_if};

// Writes the codeword of a number below the count, with the table that holds its counts. At each place the skipped counts
// are taken off one by one, until a share holds the number; then the sum still to be spread falls by that length.
pub fn write_codeword(limited: LimitedShape, number: [u32; 5], table: &[u32], row: &mut [u8])
    requires holds { Holds limited.shape table.now }
    requires number_bound { value number < count_of limited.shape }
    requires chains_in_bounds { limited.shape.chains ≤ length row.old }
    ensures { row.new ≡ row_of limited.shape (value number) ++ drop limited.shape.chains row.old }
{
    let chains = limited.shape.chains as usize;
    let sum = limited.shape.sum as usize;
    let mut n = number;
    let mut left = sum;
    for place in 0..chains {
        let above = (chains - 1 - place) * (sum + 1) + left;
        // A share always holds the number: a `for` would need an answer for an end that is never reached.
        let mut j = 0;
        let digit = loop {
            let share = load(table, above - j);
            if less(n, share) {
                break j;
            }
            // In two steps: `n = subtract(n, ..)` is not proved, since the array would be read and written in one call.
            let rest = subtract(n, share);
            n = rest;
            j += 1;
        };
        row[place] = digit as u8;
        left -= digit;
    }
}

// The codeword of the number, into the first bytes of the row: refused where the number is not below the count.
pub fn place(
    limited: LimitedShape,
    number: [u32; 5],
    count: [u32; 5],
    table: &[u32],
    row: &mut [u8],
) -> Result<(), Refusal>
    requires { Placeable limited.shape count table.now row.old }
    ensures { PlacesNumber limited.shape (value number) row.old row.new result }
{
    refuse_if(!less(number, count), Refusal::NumberTooLarge)?;
    write_codeword(limited, number, table, row);
    Ok(())
}

// Spread: the codeword of the number, into the first bytes of the row.
pub fn unrank(
    shape: Shape,
    number: [u32; 5],
    table: &mut [u32],
    row: &mut [u8],
) -> Result<(), Refusal>
    ensures { Unranks shape (value number) table.old row.old table.new row.new result }
{
    check_count(shape, table.len())?;
    refuse_if(row.len() < shape.chains as usize, Refusal::OutputTooShort)?;
    let limited = LimitedShape { shape };
    let count = fill(limited, table);
    place(limited, number, count, table, row)
}
