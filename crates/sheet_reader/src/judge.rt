// A whole sheet, judged.
ghost use Rattle.std.specs.Prelude.{◌≡◌, ◌^◌, ◌<◌};
ghost use Rattle.refusal.specs.declared.Refusal.TheVariants.{SheetLine};
ghost use Rattle.sheet_reader.specs.Sheet.{read_sheet};
ghost use Rattle.sheet_reader.specs.inner.Judging.{judgement};

use frame_reader::{Place, take_frames};
use frames::{LimitedProfile, frame_count, frame_size};
use refusal::Refusal;

// The cause that tells the line at a place, which is wrong.
fn wrong_line(there: Place) -> Refusal
    requires { there.line < 2 ^ 32 }
    ensures { result ≡ SheetLine there.line }
{
    Refusal::SheetLine(there.line as u32)
}

// A whole sheet, judged: the length of its text, or its first wrong line. Behind the text the sheet ends.
pub fn judge(sheet: &[u8], limited: LimitedProfile) -> Result<usize, Refusal>
    ensures { result ≡ judgement (read_sheet limited.profile sheet.now) }
{
    let count = frame_count(limited.profile);
    let passed = take_frames(sheet, limited, count).map_err(wrong_line)?;
    if passed.end.at < sheet.len() {
        return Err(wrong_line(passed.end));
    }
    Ok((passed.end.at - passed.text.at - 1) / 2 - frame_size(limited.profile, count).fixed)
}
