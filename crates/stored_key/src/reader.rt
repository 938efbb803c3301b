// Read key: the key of a frame.
ghost use Rattle.std.specs.Prelude.{◌≡◌, cond, ◌+◌, ◌*◌, ◌≤◌, eqb, length, drop};
ghost use Rattle.stored_key.specs.KeyFields.{key_length};
ghost use Rattle.stored_key.specs.KeyFrame.{key_in, without_idle_mark};
ghost use Rattle.stored_key.specs.Operations.{ReadsKey};
ghost use Rattle.stored_key.specs.inner.Parts.{frame_length, framed_test};

use super::fields::{
    CHAINS_AT, FRAME_BYTES, HEIGHT_AT, LINE_LENGTH, MARK_AT, NEXT_AT, SECRET_AT, SEED_AT, SUM_AT,
    WIDTH_AT,
};
use frames::Kind;
use hex_lines::read_line;
use octets::{array_at, word_at};
use profile::{Profile, Shape, check_profile};
use refusal::{Refusal, refuse_if};
use signing_key::{Counter, SigningKey, mark_stands};

// Whether the kind, the mark and the edition's byte of a frame's bytes are right. The last stands in edition 2 alone.
fn is_framed(bytes: &[u8]) -> bool
    requires { frame_length ≤ length bytes.now }
    ensures { result ≡ framed_test bytes.now }
{
    bytes[0] == Kind::StoredKey.byte()
        && bytes[MARK_AT] < 2
        && (bytes.len() == FRAME_BYTES || bytes[FRAME_BYTES] == 2)
}

// The edition of a frame's bytes: edition 2 has one more than the fields have.
fn edition_of(bytes: &[u8]) -> u32
    ensures { result ≡ cond (eqb (length (drop 1 bytes.now)) (key_length + 1)) 2 1 }
{
    if bytes.len() == FRAME_BYTES + 1 { 2 } else { 1 }
}

// The profile in a frame's bytes.
fn profile_in(bytes: &[u8]) -> Profile
    requires { frame_length ≤ length bytes.now }
    ensures { result ≡ (key_in (drop 1 bytes.now)).profile }
{
    Profile {
        shape: Shape {
            chains: u32::from(bytes[CHAINS_AT]),
            width: u32::from(bytes[WIDTH_AT]),
            sum: u32::from(u16::from_be_bytes(array_at(bytes, SUM_AT))),
        },
        height: u32::from(bytes[HEIGHT_AT]),
        edition: edition_of(bytes),
    }
}

// The key in a frame's bytes. A mark that does not count is read as none.
fn key_in(bytes: &[u8]) -> SigningKey
    requires { frame_length ≤ length bytes.now }
    ensures { result ≡ without_idle_mark (key_in (drop 1 bytes.now)) }
{
    let profile = profile_in(bytes);
    let counter = Counter {
        next: word_at(bytes, NEXT_AT),
        mark: bytes[MARK_AT] == 1,
    };
    SigningKey {
        profile,
        seed: array_at(bytes, SEED_AT),
        secret: array_at(bytes, SECRET_AT),
        counter: Counter {
            mark: mark_stands(profile, counter),
            ..counter
        },
    }
}

// Read key for a frame as long as a line of so many bytes as the slice has, into which it is read. It answers as Read key does: a step
// that handed the key on in another form would leave one more copy of the secret seed on the stack.
fn read_sized(frame: &[u8], bytes: &mut [u8]) -> Result<SigningKey, Refusal>
    requires { (frame_length ≤ length bytes.old) × (length bytes.old ≤ frame_length + 1)
        × (length frame.now ≡ 2 * length bytes.old + 1) }
    ensures { ReadsKey frame.now result }
{
    if !read_line(frame, 0, bytes) || !is_framed(bytes) {
        return Err(Refusal::SheetLine(1));
    }
    let key = key_in(bytes);
    refuse_if(check_profile(key.profile).is_err(), Refusal::SheetLine(1))?;
    Ok(key)
}

// Read key: a frame of the fields alone is of edition 1, and one with a byte more of edition 2. A wrong frame is line 1.
pub fn read_key(frame: &[u8]) -> Result<SigningKey, Refusal>
    ensures { ReadsKey frame.now result }
{
    let mut bytes = [0; FRAME_BYTES + 1];
    if frame.len() == LINE_LENGTH {
        read_sized(frame, &mut bytes[..FRAME_BYTES])
    } else if frame.len() == LINE_LENGTH + 2 {
        read_sized(frame, &mut bytes)
    } else {
        Err(Refusal::SheetLine(1))
    }
}
