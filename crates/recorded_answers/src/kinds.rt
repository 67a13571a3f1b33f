// The kinds of records, by the numbers that they have in the file.
use crate::records::Fault;
use std::fmt;

#[derive(Clone, Copy, Debug, PartialEq, Eq)]
pub enum Kind {
    BlockRead = 1,
    WholeBlock = 2,
    Window = 3,
    Start = 4,
    Write = 5,
    Skip = 6,
    Progress = 7,
    Finish = 8,
    Contents = 9,
    MaskParse = 10,
    MaskWrite = 11,
    MaskLookup = 12,
    MaskFromMarks = 13,
    ToBandSequential = 14,
    FromBandSequential = 15,
    FromPixels = 16,
}

impl Kind {
    pub const ALL: [Kind; 16] = [
        Kind::BlockRead,
        Kind::WholeBlock,
        Kind::Window,
        Kind::Start,
        Kind::Write,
        Kind::Skip,
        Kind::Progress,
        Kind::Finish,
        Kind::Contents,
        Kind::MaskParse,
        Kind::MaskWrite,
        Kind::MaskLookup,
        Kind::MaskFromMarks,
        Kind::ToBandSequential,
        Kind::FromBandSequential,
        Kind::FromPixels,
    ];

    fn name(self) -> &'static str {
        match self {
            Kind::BlockRead => "block read",
            Kind::WholeBlock => "whole block",
            Kind::Window => "window",
            Kind::Start => "start",
            Kind::Write => "write",
            Kind::Skip => "skip",
            Kind::Progress => "progress",
            Kind::Finish => "finish",
            Kind::Contents => "contents",
            Kind::MaskParse => "mask parse",
            Kind::MaskWrite => "mask write",
            Kind::MaskLookup => "mask lookup",
            Kind::MaskFromMarks => "mask from marks",
            Kind::ToBandSequential => "to band sequential",
            Kind::FromBandSequential => "from band sequential",
            Kind::FromPixels => "to band sequential from pixels",
        }
    }
}

impl TryFrom<u32> for Kind {
    type Error = Fault;

    fn try_from(n: u32) -> Result<Self, Fault> {
        Kind::ALL
            .into_iter()
            .find(|kind| *kind as u32 == n)
            .ok_or(Fault::UnknownKind)
    }
}

impl fmt::Display for Kind {
    fn fmt<W: fmt::Write>(&self, f: &mut fmt::Formatter<W>) -> fmt::Result {
        f.pad(self.name())
    }
}
