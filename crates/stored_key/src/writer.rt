// Write key: the frame of a key.
ghost use Rattle.std.specs.Prelude.{◌≡◌, ◌++◌, ◌*◌, ◌^◌, ◌≤◌, length, drop};
ghost use Rattle.hex_lines.specs.Hex.{hex_of};
ghost use Rattle.signing_key.specs.Counter as counting;
ghost use Rattle.stored_key.specs.KeyFields.{next_field};
ghost use Rattle.stored_key.specs.Operations.{WritesKey};
ghost use Rattle.stored_key.specs.inner.Parts.{field_place, front_bytes, last_bytes};

use super::fields::{LAST_BYTES, LINE_LENGTH, NEXT_AT, SECRET_AT, SEED_AT};
use frames::{Kind, LimitedProfile, edition_bytes};
use hex_lines::{write_bytes, write_line};
use octets::word_bytes;
use profile::{Profile, check_profile};
use refusal::{Refusal, refuse_if};
use signing_key::{Counter, SigningKey, mark_stands};

// The bytes behind the seeds, as in edition 2: in edition 1 the last is left out. A mark that does not count is written as none.
#[tactic(auto, unfolding(octets::specs::Bytes::to_bytes, frames::specs::Frames::edition_byte))]
fn last_bytes(p: Profile, counter: Counter) -> [u8; 6]
    ensures { result ≡ last_bytes counter.next (counting.mark_counts (2 ^ p.height) counter) 2 }
{
    let [a, b, c, d] = word_bytes(counter.next);
    [a, b, c, d, u8::from(mark_stands(p, counter)), 2]
}

// Writes the frame of a key up to behind its seeds.
fn write_front(limited: LimitedProfile, seed: [u8; 16], secret: [u8; 16], frame: &mut [u8])
    requires { 2 * field_place next_field ≤ length frame.old }
    ensures { frame.new ≡ hex_of (front_bytes limited.profile ++ seed ++ secret) ++ drop (2 * field_place next_field) frame.old }
{
    let front = limited.profile_head(Kind::StoredKey.byte());
    write_bytes(frame, 0, &front[..SEED_AT]);
    write_bytes(frame, 2 * SEED_AT, &seed);
    write_bytes(frame, 2 * SECRET_AT, &secret);
}

// Write key: the frame of a key into the first bytes of `frame`, which is written only where it has room.
pub fn write_key(key: SigningKey, frame: &mut [u8]) -> Result<usize, Refusal>
    ensures { WritesKey key frame.old frame.new result }
{
    check_profile(key.profile)?;
    let limited = LimitedProfile {
        profile: key.profile,
    };
    let added = edition_bytes(key.profile.edition);
    refuse_if(
        frame.len() < LINE_LENGTH + 2 * added,
        Refusal::OutputTooShort,
    )?;
    let last = last_bytes(key.profile, key.counter);
    write_front(limited, key.seed, key.secret, frame);
    Ok(write_line(frame, 2 * NEXT_AT, &last[..LAST_BYTES + added]))
}
