// The bytes that a sheet carries, copied into slices.
ghost use Rattle.std.specs.Prelude.{◌≡◌, ◌++◌, ◌+◌, ◌*◌, ◌^◌, ◌≤◌, ◌<◌, length, drop};
ghost use Rattle.signature.specs.Signature.{signature_length};
ghost use Rattle.frames.specs.Frames.{frames, text_frame};
ghost use Rattle.frames.specs.inner.Size.{behind_all};
ghost use Rattle.sheet_reader.specs.inner.Payload.{bytes_in, payloads};

use frames::{LimitedProfile, frame_count, frame_size};
use hex_lines::byte_at;
use profile::Profile;

// Fills a slice with the bytes that stand from an index of the sheet on; 0 where none stands.
fn copy(sheet: &[u8], at: usize, out: &mut [u8])
    requires { at + 2 * length out.old < 2 ^ 64 }
    ensures { out.new ≡ bytes_in sheet.now at (length out.old) }
{
    for (i, byte) in out.iter_mut().enumerate() {
        *byte = byte_at(sheet, at + 2 * i).unwrap_or(0);
    }
}

// Copies the bytes behind the fixed ones of all frames in front of the text, and gives the place behind those frames.
pub fn copy_signature(sheet: &[u8], limited: LimitedProfile, signature: &mut [u8]) -> usize
    requires { signature_length limited.profile ≤ length signature.old }
    ensures { (result ≡ behind_all 0 (frames limited.profile))
        × (signature.new ≡ payloads sheet.now 0 (frames limited.profile) ++ drop (signature_length limited.profile) signature.old) }
{
    let mut at = 0;
    let mut from = 0;
    for k in 0..frame_count(limited.profile) {
        let size = frame_size(limited.profile, k);
        let to = from + size.high;
        copy(sheet, at + 2 * size.fixed, &mut signature[from..to]);
        at += 2 * (size.fixed + size.high) + 1;
        from = to;
    }
    at
}

// Copies a text, whose frame begins at an index, into a slice of its length.
pub fn copy_text(sheet: &[u8], p: Profile, at: usize, text: &mut [u8])
    requires { at + 2 * (length text_frame.head + length text.old) < 2 ^ 64 }
    ensures { text.new ≡ bytes_in sheet.now (at + 2 * length text_frame.head) (length text.old) }
{
    let fixed = frame_size(p, frame_count(p)).fixed;
    copy(sheet, at + 2 * fixed, text);
}
