// The frames of a profile's sheet, numbered from 0: how many bytes each has, and its fixed ones. The reader and the writer
// take them from here.
#![tactic(auto)]

ghost use Rattle.std.specs.Prelude.{◌≡◌, [], ◌∷◌, ◌++◌, ◌+◌, ◌≤◌, ◌<◌, length, get_or};
ghost use Rattle.octets.specs.Bytes.{to_bytes};
ghost use Rattle.frames.specs.Frames.{first_characters, edition_byte, frames, frame_at};
ghost use Rattle.frames.specs.Kinds.{kind_byte};
ghost use Rattle.frames.specs.inner.Size.{HasSize, behind_all};

mod limited;

pub use limited::LimitedProfile;
use octets::word_bytes;
use profile::Profile;

// How many frames stand in front of the values: the first line, the profile's, the leaf's and R's.
const FRONT: usize = 4;

// How many fixed bytes a frame has: the first line, the profile's without the edition's byte, one of a kind alone, and one of
// a kind and a number.
const FIRST: usize = 3;

const PROFILE: usize = 6;

const KIND_ONLY: usize = 1;

const NUMBERED: usize = 2;

// How many bytes stand behind them: the leaf, and R, a value or a sibling.
const LEAF: usize = 4;

const VALUE: usize = 16;

// A line of n bytes has 2 n + 1: the lines in front of the values without the profile's bytes, and the line of a value or a sibling.
const FRONT_LINES: usize = 2 * (FIRST + KIND_ONLY + LEAF + KIND_ONLY + VALUE) + FRONT;

const NUMBERED_LINE: usize = 2 * (NUMBERED + VALUE) + 1;

// The kinds of frames, by their numbers.
#[derive(Clone, Copy)]
pub enum Kind {
    Profile = 1,
    Leaf = 2,
    Randomizer = 3,
    Value = 4,
    Sibling = 5,
    Text = 6,
    StoredKey = 7,
}

impl Kind {
    // The byte that a frame of the kind begins with.
    pub fn byte(self) -> u8
        ensures { result ≡ kind_byte self }
    {
        self as u8
    }
}

// How many bytes a frame has: the fixed ones, and behind them at least and at most so many.
#[derive(Clone, Copy)]
pub struct Size {
    pub fixed: usize,
    pub low: usize,
    pub high: usize,
}

// The size of a frame with so many bytes behind the fixed ones.
fn sized(fixed: usize, payload: usize) -> Size
    ensures { (result.fixed ≡ fixed) × (result.low ≡ payload) × (result.high ≡ payload) }
{
    Size {
        fixed,
        low: payload,
        high: payload,
    }
}

// The six characters of the first line.
pub fn first_characters() -> [u8; 6]
    ensures { result ≡ first_characters }
{
    *b"474F31"
}

// How many frames stand in front of the text, the first line among them.
pub fn frame_count(p: Profile) -> usize
    ensures { result ≡ length (frames p) }
{
    FRONT + p.shape.chains as usize + p.height as usize
}

// How many bytes the edition adds to a frame that names a profile.
#[tactic(auto, unfolding(crate::specs::Frames::edition_byte))]
pub fn edition_bytes(edition: u32) -> usize
    ensures { (result ≡ length (edition_byte edition)) × (result ≤ 1) }
{
    if edition == 2 { 1 } else { 0 }
}

// How many bytes the profile's frame has.
fn profile_bytes(edition: u32) -> usize
    ensures { result ≡ 6 + length (edition_byte edition) }
{
    PROFILE + edition_bytes(edition)
}

// How many bytes the lines in front of the text have.
pub fn lines_length(p: Profile) -> usize
    ensures { result ≡ behind_all 0 (frames p) }
{
    FRONT_LINES
        + 2 * profile_bytes(p.edition)
        + NUMBERED_LINE * (p.shape.chains as usize + p.height as usize)
}

// The size of frame k: the first line, the profile, the leaf, R, values and siblings, and behind them the text.
pub fn frame_size(p: Profile, k: usize) -> Size
    ensures { HasSize (frame_at p k) result }
{
    match k {
        0 => sized(FIRST, 0),
        1 => sized(profile_bytes(p.edition), 0),
        2 => sized(KIND_ONLY, LEAF),
        3 => sized(KIND_ONLY, VALUE),
        _ if k < frame_count(p) => sized(NUMBERED, VALUE),
        _ => Size {
            fixed: KIND_ONLY,
            low: 1,
            high: 200,
        },
    }
}

// The fixed bytes of a frame of a kind with a number.
fn numbered_head(kind: Kind, number: usize) -> [u8; 2]
    requires { number < 256 }
    ensures { result ≡ kind_byte kind ∷ number ∷ [] }
{
    [kind.byte(), number as u8]
}

impl LimitedProfile {
    // The kind of a frame that names the profile, the profile's numbers, and the byte of edition 2. The kind is any byte, as it was.
    pub fn profile_head(self, kind: u8) -> [u8; 7]
        ensures { result ≡ kind ∷ self.profile.shape.chains ∷ self.profile.shape.width ∷ self.profile.height
            ∷ (to_bytes 2 self.profile.shape.sum ++ edition_byte 2) }
    {
        let p = self.profile;
        let [_, _, high, low] = word_bytes(p.shape.sum);
        [
            kind,
            p.shape.chains as u8,
            p.shape.width as u8,
            p.height as u8,
            high,
            low,
            2,
        ]
    }

    // Byte i of the fixed ones of frame k, behind the first line.
    pub fn head_byte(self, k: usize, i: usize) -> u8
        requires { (1 ≤ k) × (i < length (frame_at self.profile k).head) }
        ensures { result ≡ get_or (frame_at self.profile k).head i 0 }
    {
        let values = FRONT + self.profile.shape.chains as usize;
        match k {
            // By its number, which is what a frame is asked for by.
            1 => self.profile_head(Kind::Profile.byte())[i],
            2 => Kind::Leaf.byte(),
            3 => Kind::Randomizer.byte(),
            _ if k < values => numbered_head(Kind::Value, k - FRONT)[i],
            _ if k < frame_count(self.profile) => numbered_head(Kind::Sibling, k - values)[i],
            _ => Kind::Text.byte(),
        }
    }
}
