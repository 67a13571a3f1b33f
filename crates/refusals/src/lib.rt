// Why a call is refused: the first of its questions that is answered no.
#![tactic(auto)]

ghost use Rattle.std.specs.Prelude.{◌≡◌};
ghost use Rattle.refusals.specs.Refusals.{number_of, answer_number};

use std::error::Error;
use std::fmt;

#[derive(Clone, Copy, Debug, PartialEq, Eq)]
pub enum Refusal {
    // 1: NROWS, NCOLS, NPPBH, NPPBV or the count of bands is outside its limits.
    Limits,
    // 2: NBPP is no width that is taken, or the width table bars it; in a reordering, a sample does not have 1 to 8
    // bytes.
    Width,
    // 3: NBPR or NBPC does not follow from the rest, or is more than 9,999.
    BlockCounts,
    // 4: the image, or the data of a reordering by its counts, is larger than 4,294,967,294 bytes.
    TooLarge,
    // 5: the resolution level is not 0.
    ResolutionLevel,
    // 6: the block is outside the grid.
    BlockOutsideGrid,
    // 7: the image ends before the block does.
    ImageEnds,
    // 8: a band is asked for that the picture does not have.
    NoSuchBand,
    // 9: an output is too short.
    OutputTooShort,
    // 10: the window is empty or outside the picture.
    WindowOutsidePicture,
    // 11: the image buffer is too short.
    ImageTooShort,
    // 12: there are too few words for the marks.
    MarksTooShort,
    // 13: the shape is not the block's.
    OtherShape,
    // 14: the data has another length.
    DataLength,
    // 15: a block was neither written nor skipped: the first one by rows, then columns.
    UnmarkedBlock { row: usize, column: usize },
    // 16: the mask table has less than ten bytes.
    TableTooShort,
    // 17: a record length is neither 0 nor 4.
    RecordLength,
    // 18: the pad code has more than 32 bits.
    PadCodeLength,
    // 19: the mask table ends before its records do.
    TableEnds,
    // 20: the pad code does not fit its length.
    PadCode,
    // 21: the mask table would be too large.
    TableTooLarge,
    // 22: an offset list has another length than its records.
    OffsetCount,
    // 23: a part of the subheader has another length, or one of its numbers is not all digits.
    SubheaderPart,
    // 24: PVTYPE, PJUST, IC or IMODE has no named value, or an ABPP to be written is above 99.
    NamedValue,
    // 26: a sample that is to be written has a bit above NBPP.
    SampleBits,
    // 27: the edge rule is full already.
    AlreadyFull,
    // 33: a width table to load does not have 68 bytes, or its length, its version or an entry is wrong.
    WidthTable,
    // 99: a byte that is no mode, or no edge rule.
    NoMode,
}

impl Refusal {
    // The number of the question.
    pub fn number(self) -> u32
        ensures { result ≡ number_of self }
    {
        match self {
            Self::Limits => 1,
            Self::Width => 2,
            Self::BlockCounts => 3,
            Self::TooLarge => 4,
            Self::ResolutionLevel => 5,
            Self::BlockOutsideGrid => 6,
            Self::ImageEnds => 7,
            Self::NoSuchBand => 8,
            Self::OutputTooShort => 9,
            Self::WindowOutsidePicture => 10,
            Self::ImageTooShort => 11,
            Self::MarksTooShort => 12,
            Self::OtherShape => 13,
            Self::DataLength => 14,
            Self::UnmarkedBlock { .. } => 15,
            Self::TableTooShort => 16,
            Self::RecordLength => 17,
            Self::PadCodeLength => 18,
            Self::TableEnds => 19,
            Self::PadCode => 20,
            Self::TableTooLarge => 21,
            Self::OffsetCount => 22,
            Self::SubheaderPart => 23,
            Self::NamedValue => 24,
            Self::SampleBits => 26,
            Self::AlreadyFull => 27,
            Self::WidthTable => 33,
            Self::NoMode => 99,
        }
    }
}

// The number of an answer: 0 where the call is accepted.
pub fn answer_number<T>(answer: &Result<T, Refusal>) -> u32
    ensures { result ≡ answer_number answer.now }
{
    match answer {
        Ok(_) => 0,
        Err(refusal) => refusal.number(),
    }
}

impl fmt::Display for Refusal {
    fn fmt<W: fmt::Write>(&self, f: &mut fmt::Formatter<W>) -> fmt::Result {
        let number = self.number();
        match self {
            Self::UnmarkedBlock { row, column } => write!(
                f,
                "{number}: block {row}, {column} is unmarked"
            ),
            _ => write!(f, "{number}: {self:?}"),
        }
    }
}

impl Error for Refusal {}
