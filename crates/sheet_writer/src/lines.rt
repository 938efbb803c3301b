// The lines of a sheet, written one behind the other.
ghost use Rattle.std.specs.Prelude.{◌≡◌, [], ◌++◌, ◌+◌, ◌*◌, ◌≤◌, ◌<◌, length, take, drop};
ghost use Rattle.hex_lines.specs.Hex.{hex_of};
ghost use Rattle.signature.specs.Signature.{signature_length};
ghost use Rattle.frames.specs.Frames.{first_frame, frames, frame_at};
ghost use Rattle.frames.specs.Lines.{frame_line, lines_of};
ghost use Rattle.frames.specs.inner.Size.{behind_all};

use frames::{LimitedProfile, first_characters, frame_count, frame_size};
use hex_lines::{write_byte, write_line};
use octets::copy;

// Writes the first line, and gives the index behind it.
fn write_first_line(sheet: &mut [u8]) -> usize
    requires { 7 ≤ length sheet.old }
    ensures { (result ≡ 7) × (sheet.new ≡ frame_line first_frame [] ++ drop 7 sheet.old) }
{
    copy(&first_characters(), sheet, 0);
    sheet[6] = b'\n';
    7
}

// Writes the fixed bytes of frame k, behind the first line, from an index on.
fn write_head(sheet: &mut [u8], at: usize, limited: LimitedProfile, k: usize, fixed: usize)
    requires { (1 ≤ k) × (fixed ≡ length (frame_at limited.profile k).head) × (at + 2 * fixed ≤ length sheet.old) }
    ensures { sheet.new
        ≡ take at sheet.old ++ hex_of (frame_at limited.profile k).head ++ drop (at + 2 * fixed) sheet.old }
{
    for i in 0..fixed {
        write_byte(sheet, at + 2 * i, limited.head_byte(k, i));
    }
}

// Writes frame k, behind the first line, with these bytes behind its fixed ones, and gives the index behind its line.
pub fn write_frame(
    sheet: &mut [u8],
    at: usize,
    limited: LimitedProfile,
    k: usize,
    bytes: &[u8],
) -> usize
    requires { (1 ≤ k) × (at + length (frame_line (frame_at limited.profile k) bytes.now) ≤ length sheet.old) }
    ensures { (result ≡ at + length (frame_line (frame_at limited.profile k) bytes.now))
        × (sheet.new
        ≡ take at sheet.old ++ frame_line (frame_at limited.profile k) bytes.now ++ drop result sheet.old) }
{
    let fixed = frame_size(limited.profile, k).fixed;
    write_head(sheet, at, limited, k, fixed);
    write_line(sheet, at + 2 * fixed, bytes)
}

// Writes the frames in front of the text, with the bytes of a signature behind the fixed ones, and gives the index behind them.
pub fn write_frames(sheet: &mut [u8], limited: LimitedProfile, signature: &[u8]) -> usize
    requires { (length signature.now ≡ signature_length limited.profile)
        × (behind_all 0 (frames limited.profile) ≤ length sheet.old) }
    ensures { (result ≡ behind_all 0 (frames limited.profile))
        × (sheet.new ≡ lines_of (frames limited.profile) signature.now ++ drop result sheet.old) }
{
    let mut at = write_first_line(sheet);
    let mut rest = signature;
    for k in 1..frame_count(limited.profile) {
        let (bytes, behind) = rest.split_at(frame_size(limited.profile, k).high);
        at = write_frame(sheet, at, limited, k, bytes);
        rest = behind;
    }
    at
}
