// The listing: for a shape in one line of hex, a line for each of the first numbers and its codeword.
#![tactic(auto)]

ghost use Rattle.std.specs.Prelude.{◌≡◌, ◌++◌, ◌+◌, ◌*◌, ◌≤◌, ◌<◌, min, length, take, drop, Ok};
ghost use Rattle.refusal.specs.Code.{code};
ghost use Rattle.numbers.specs.Number.{value};
ghost use Rattle.hex_lines.specs.Hex.{read_line};
ghost use Rattle.counts.specs.Counts.{count};
ghost use Rattle.counts.specs.Table.{Holds};
ghost use Rattle.listing.specs.Input.{line_read, left_of};
ghost use Rattle.listing.specs.Listing.{request_in, row_line, row_lines, refusal_line, answer_to, work_after, Lists};

mod input;
mod reads;

use codewords::unranking::write_codeword;
use counts::codeword_count;
use hex_lines::{read_line, write_line};
pub use input::Input;
use numbers::number::less;
use octets::front_word;
use profile::{LimitedShape, Shape};
use refusal::{Refusal, refuse_if};

// The shape that the first line asks for. The kinds of the listing's three lines, 16, 17 and 31, stand once each where a line is
// read or written.
fn read_request(input: &[u8]) -> Result<Shape, Refusal>
    ensures { result ≡ request_in (read_line input.now) }
{
    let mut bytes = [0u8; 5];
    refuse_if(!read_line(input, 0, &mut bytes), Refusal::SheetLine(1))?;
    refuse_if(bytes[0] != 16, Refusal::SheetLine(1))?;
    Ok(Shape {
        chains: u32::from(bytes[1]),
        width: u32::from(bytes[2]),
        sum: front_word(&bytes[3..]),
    })
}

// Prints a refusal.
fn write_refusal(cause: Refusal, out: &mut [u8]) -> usize
    requires { 5 ≤ length out.old }
    ensures { (result ≡ length (refusal_line (code cause))) × (out.new ≡ refusal_line (code cause) ++ drop result out.old) }
{
    write_line(out, 0, &[31, cause.code()])
}

// How many lines a count gives.
fn line_count(count: [u32; 5]) -> usize
    ensures { result ≡ min (value count) 256 }
{
    if less(count, [256, 0, 0, 0, 0]) {
        count[0] as usize
    } else {
        256
    }
}

// Prints the line of a number from index `at` on, and gives the index behind it.
fn write_row(limited: LimitedShape, n: usize, table: &[u32], out: &mut [u8], at: usize) -> usize
    requires { Holds limited.shape table.now × (n < count limited.shape) × (n < 256) × (at + 87 ≤ length out.old) }
    ensures { (result ≡ at + length (row_line limited.shape n))
        × (out.new ≡ take at out.old ++ row_line limited.shape n ++ drop result out.old) }
{
    let mut row = [0u8; 43];
    row[0] = 17;
    row[1..3].copy_from_slice(&(n as u16).to_be_bytes());
    write_codeword(limited, [n as u32, 0, 0, 0, 0], table, &mut row[3..]);
    write_line(out, at, &row[..limited.shape.chains as usize + 3])
}

// Prints the lines of the first numbers.
fn write_rows(limited: LimitedShape, lines: usize, table: &[u32], out: &mut [u8]) -> usize
    requires { Holds limited.shape table.now × (lines ≡ min (count limited.shape) 256) × (22272 ≤ length out.old) }
    ensures { (result ≡ length (row_lines limited.shape)) × (out.new ≡ row_lines limited.shape ++ drop result out.old) }
{
    let mut at = 0;
    for n in 0..lines {
        at = write_row(limited, n, table, out, at);
    }
    at
}

// Prints the lines of a shape, or its refusal.
fn write_answer(shape: Shape, table: &mut [u32], out: &mut [u8]) -> usize
    requires { (length table.old ≡ 16000) × (22272 ≤ length out.old) }
    ensures { (result ≡ length (answer_to (Ok shape)))
        × (out.new ≡ answer_to (Ok shape) ++ drop result out.old)
        × (table.new ≡ work_after (Ok shape) table.old) }
{
    match codeword_count(shape, table) {
        Ok(count) => write_rows(LimitedShape { shape }, line_count(count), table, out),
        Err(cause) => write_refusal(cause, out),
    }
}

// Prints the listing that the line asks for, and gives its length.
pub fn listing(input: Input, table: &mut [u32], out: &mut [u8]) -> usize
    requires { (left_of input ≡ 0) × (length table.old ≡ 16000) × (22272 ≤ length out.old) }
    ensures { Lists (line_read input) table.old table.new out.old out.new result }
{
    match read_request(&input.bytes[..input.long]) {
        Ok(shape) => write_answer(shape, table, out),
        Err(cause) => write_refusal(cause, out),
    }
}
