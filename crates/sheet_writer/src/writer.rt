// Write sheet: the causes of refusal in order, and then the whole sheet.
ghost use Rattle.std.specs.Prelude.{◌≡◌};
ghost use Rattle.refusal.specs.Code.{outcome_code, first_cause};
ghost use Rattle.sheet_writer.specs.Operations.{carried_causes, WritesSheet};

use super::lines::{write_frame, write_frames};
use frames::{LimitedProfile, frame_count, lines_length};
use profile::{Profile, check_profile};
use refusal::{Refusal, refuse_if};
use signature::{outside_text, signature_length};

// The causes that do not look at the sheet's slice.
fn check_carried(p: Profile, signature: &[u8], message: &[u8]) -> Result<(), Refusal>
    ensures { outcome_code result ≡ first_cause (carried_causes p signature.now message.now) }
{
    check_profile(p)?;
    refuse_if(outside_text(message.len()), Refusal::MessageLength)?;
    refuse_if(
        signature.len() != signature_length(p),
        Refusal::SignatureLength,
    )
}

// Write sheet: the right sheet of a signature and a message into the first bytes of `sheet`. Nothing is written unless all
// of it has room: the text's line has two characters for its kind, two a byte, and its ending.
pub fn write_sheet(
    p: Profile,
    signature: &[u8],
    message: &[u8],
    sheet: &mut [u8],
) -> Result<usize, Refusal>
    ensures { WritesSheet p signature.now message.now sheet.old sheet.new result }
{
    check_carried(p, signature, message)?;
    let limited = LimitedProfile { profile: p };
    let length = lines_length(p) + 2 * message.len() + 3;
    refuse_if(sheet.len() < length, Refusal::OutputTooShort)?;
    let text = write_frames(sheet, limited, signature);
    let end = write_frame(sheet, text, limited, frame_count(p), message);
    Ok(end)
}
