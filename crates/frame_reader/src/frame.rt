// One frame of a sheet, from an index on.
ghost use Rattle.std.specs.Prelude.{◌≡◌, ◌+◌, ◌≤◌, length, drop};
ghost use Rattle.hex_lines.specs.Hex.{read_line};
ghost use Rattle.frames.specs.Frames.{first_frame, frame_at};
ghost use Rattle.frames.specs.Lines.{read_frame};
ghost use Rattle.frame_reader.specs.inner.Parser.{found_of, step_of, HeadStands};

use frames::{LimitedProfile, first_characters, frame_size};
use hex_lines::{byte_at, ends_at};

// Whether the fixed bytes of frame k stand from an index on.
fn head_stands(sheet: &[u8], at: usize, limited: LimitedProfile, k: usize, fixed: usize) -> bool
    requires { (at ≤ length sheet.now) × (1 ≤ k) × (fixed ≡ length (frame_at limited.profile k).head) × (fixed ≤ 7) }
    ensures { HeadStands sheet.now at (frame_at limited.profile k).head fixed result }
{
    for i in 0..fixed {
        if byte_at(sheet, at + 2 * i) != Some(limited.head_byte(k, i)) {
            return false;
        }
    }
    true
}

// How many bytes the line has that goes on at an index, where they are at most so many.
fn line_bytes(sheet: &[u8], at: usize, most: usize) -> Option<usize>
    requires { (at ≤ length sheet.now + 14) × (most ≤ 200) }
    ensures { result ≡ found_of most (read_line (drop at sheet.now)) }
{
    for i in 0..=most {
        if ends_at(sheet, at + 2 * i) {
            return Some(i);
        }
        byte_at(sheet, at + 2 * i)?;
    }
    None
}

// The index behind the first line, where it is right.
fn first_line(sheet: &[u8]) -> Option<usize>
    ensures { result ≡ step_of 0 (length first_frame.head) (read_frame first_frame sheet.now) }
{
    if sheet.starts_with(&first_characters()) && ends_at(sheet, 6) {
        Some(7)
    } else {
        None
    }
}

// The frame parser: the index behind the line that begins at an index, where it is frame k of a profile's sheet.
pub fn frame(sheet: &[u8], at: usize, limited: LimitedProfile, k: usize) -> Option<usize>
    requires { (at ≤ length sheet.now) × (k ≡ 0 → at ≡ 0) }
    ensures { result ≡ step_of at (length (frame_at limited.profile k).head)
        (read_frame (frame_at limited.profile k) (drop at sheet.now)) }
{
    if k == 0 {
        return first_line(sheet);
    }
    let size = frame_size(limited.profile, k);
    if !head_stands(sheet, at, limited, k, size.fixed) {
        return None;
    }
    let n = line_bytes(sheet, at + 2 * size.fixed, size.high)?;
    if n < size.low {
        return None;
    }
    Some(at + 2 * (size.fixed + n) + 1)
}
