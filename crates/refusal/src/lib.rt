// The causes for which a call is refused, their codes, and how one cause is looked at after another.
#![tactic(auto)]

ghost use Rattle.std.specs.Prelude.{◌≡◌, true, false, OnOk, IfErr};
ghost use Rattle.refusal.specs.Code.{code, outcome_code, line_told};

// Every cause of documents 01 and 02, in the order of their codes, which are the documents' numbers. Those from 23 on belong to
// points of document 02 that are still to come. `SheetLine` carries the first line that is wrong, from 1.
#[derive(Clone, Copy, Debug, PartialEq, Eq)]
pub enum Refusal {
    ChainCount,
    Width,
    Sum,
    Height,
    TableTooShort,
    OutputTooShort,
    NumberTooLarge,
    CodewordLength,
    DigitTooLarge,
    CodewordSum,
    LeafOutOfRange,
    KeySpent,
    SignatureLength,
    LeafPassed,
    RootDiffers,
    MessageLength,
    SheetLine(u32),
    HashTooLong,
    CountTooSmall,
    NoMark,
    MarkStands,
    Edition,
    OrderCount,
    EndPlaces,
    LeafOrder,
    SiblingCount,
    LeafCount,
    ShareSum,
    DeskOutOfRange,
    ShareUsed,
    PlaceFilled,
    PlaceEmpty,
    ValueZero,
}

impl Refusal {
    // The code of a cause: the number that the interface page prints for it.
    // A match and no discriminants, since one cause carries a line; a method and no `From`, since its clause is the number.
    pub fn code(self) -> u8
        ensures { result ≡ code self }
    {
        match self {
            Refusal::ChainCount => 1,
            Refusal::Width => 2,
            Refusal::Sum => 3,
            Refusal::Height => 4,
            Refusal::TableTooShort => 5,
            Refusal::OutputTooShort => 6,
            Refusal::NumberTooLarge => 7,
            Refusal::CodewordLength => 8,
            Refusal::DigitTooLarge => 9,
            Refusal::CodewordSum => 10,
            Refusal::LeafOutOfRange => 11,
            Refusal::KeySpent => 12,
            Refusal::SignatureLength => 13,
            Refusal::LeafPassed => 14,
            Refusal::RootDiffers => 15,
            Refusal::MessageLength => 16,
            Refusal::SheetLine(_) => 17,
            Refusal::HashTooLong => 18,
            Refusal::CountTooSmall => 19,
            Refusal::NoMark => 20,
            Refusal::MarkStands => 21,
            Refusal::Edition => 22,
            Refusal::OrderCount => 23,
            Refusal::EndPlaces => 24,
            Refusal::LeafOrder => 25,
            Refusal::SiblingCount => 26,
            Refusal::LeafCount => 27,
            Refusal::ShareSum => 28,
            Refusal::DeskOutOfRange => 29,
            Refusal::ShareUsed => 30,
            Refusal::PlaceFilled => 31,
            Refusal::PlaceEmpty => 32,
            Refusal::ValueZero => 33,
        }
    }
}

// The code of an answer: 0 where it is granted, else the code of its cause.
pub fn outcome_code<T>(answer: &Result<T, Refusal>) -> u8
    ensures { result ≡ outcome_code answer.now }
{
    match answer {
        Ok(_) => 0,
        Err(cause) => cause.code(),
    }
}

// The wrong line that an answer tells, 0 where it tells none.
pub fn line_told<T>(answer: &Result<T, Refusal>) -> u32
    ensures { result ≡ line_told answer.now }
{
    match answer {
        Err(Refusal::SheetLine(line)) => *line,
        _ => 0,
    }
}

// Refuses for a cause that holds, so that causes in their order read from top to bottom.
pub fn refuse_if(holds: bool, cause: Refusal) -> Result<(), Refusal>
    ensures granted { OnOk result (holds ≡ false) }
    ensures refused { IfErr result (λ r. (r ≡ cause) × (holds ≡ true)) }
{
    if holds { Err(cause) } else { Ok(()) }
}
