// Read sheet: the signature and the text that a sheet carries.
#![tactic(auto)]

ghost use Rattle.sheet_reader.specs.Operations.{ReadsSheet};

mod judge;
mod payload;

use frames::LimitedProfile;
use judge::judge;
use payload::{copy_signature, copy_text};
use profile::{Profile, check_profile};
use refusal::{Refusal, refuse_if};
use signature::signature_length;

// Read sheet, for an expected profile: the length of the text. The sheet is judged whole, then the slices, and only then
// anything is written.
pub fn read_sheet(
    p: Profile,
    sheet: &[u8],
    signature: &mut [u8],
    message: &mut [u8],
) -> Result<usize, Refusal>
    ensures { ReadsSheet p sheet.now signature.old message.old
        signature.new message.new result }
{
    check_profile(p)?;
    let limited = LimitedProfile { profile: p };
    let length = judge(sheet, limited)?;
    refuse_if(
        signature.len() < signature_length(p),
        Refusal::OutputTooShort,
    )?;
    refuse_if(message.len() < length, Refusal::OutputTooShort)?;
    let at = copy_signature(sheet, limited, signature);
    copy_text(sheet, p, at, &mut message[..length]);
    Ok(length)
}
