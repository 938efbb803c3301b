// The reader: the sheet frame after frame, each call picking up behind the last.
#![tactic(auto)]

ghost use Rattle.std.specs.Prelude.{◌≡◌, Ok, Err, MatchResult, suc};
ghost use Rattle.frames.specs.Frames.{frame_at};
ghost use Rattle.frame_reader.specs.Places.{place_after, place_at};
ghost use Rattle.frame_reader.specs.inner.Parser.{Due};

mod frame;

use frame::frame;
use frames::LimitedProfile;

// Where the reader stands: at the index where the next line begins, with its number.
#[derive(Clone, Copy)]
pub struct Place {
    pub at: usize,
    pub line: usize,
}

// Where the reader stood before the text's frame, and where it stands behind it.
#[derive(Clone, Copy)]
pub struct Passed {
    pub text: Place,
    pub end: Place,
}

// Frame k, from a place on: the place behind it, or where its line begins, which is wrong.
fn take_frame(sheet: &[u8], here: Place, limited: LimitedProfile, k: usize) -> Result<Place, Place>
    requires { Due sheet.now k here }
    ensures { result ≡ place_after sheet.now (frame_at limited.profile k) (Ok here) }
{
    let at = frame(sheet, here.at, limited, k).ok_or(here)?;
    Ok(Place {
        at,
        line: here.line + 1,
    })
}

// A sheet, and where in it the next call picks up: document 01 names that form.
#[derive(Clone, Copy)]
struct Reader<'a> {
    sheet: &'a [u8],
    place: Place,
}

impl<'a> Reader<'a> {
    // Takes frame k: the reader behind it, or where its line begins, which is wrong.
    fn next(self, limited: LimitedProfile, k: usize) -> Result<Reader<'a>, Place>
        requires { Due self.sheet.now k self.place }
        ensures { MatchResult result
            (λ r. (r.sheet ≡ self.entry.sheet)
            × (Ok r.place ≡ place_after self.entry.sheet.now (frame_at limited.profile k) (Ok self.entry.place)))
            (λ wrong. Err wrong ≡ place_after self.entry.sheet.now (frame_at limited.profile k) (Ok self.entry.place)) }
    {
        let place = take_frame(self.sheet, self.place, limited, k)?;
        Ok(Reader {
            sheet: self.sheet,
            place,
        })
    }
}

// The whole sheet, by one reader: the frames in front of the text, which are so many, and then the text's; or where the first
// line begins that is wrong.
pub fn take_frames(sheet: &[u8], limited: LimitedProfile, count: usize) -> Result<Passed, Place>
    ensures { MatchResult result
        (λ r. (place_at sheet.now limited.profile count ≡ Ok r.text) × (place_at sheet.now limited.profile (suc count) ≡ Ok r.end))
        (λ wrong. place_at sheet.now limited.profile (suc count) ≡ Err wrong) }
{
    let mut reader = Reader {
        sheet,
        place: Place { at: 0, line: 1 },
    };
    for k in 0..count {
        reader = reader.next(limited, k)?;
    }
    let text = reader.place;
    let end = reader.next(limited, count)?.place;
    Ok(Passed { text, end })
}
