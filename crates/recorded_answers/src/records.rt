// A record of the file, and what may be wrong with it.
use crate::grids::grid_of;
use crate::kinds::Kind;
use crate::words::{Words, words_of};
use grid::Grid;
use std::error::Error;
use std::fmt;

#[derive(Clone, Copy)]
pub struct Record<'a> {
    pub kind: Kind,
    pub grid: Grid,
    // How many arguments it has, and the file from the first one on.
    pub count: usize,
    from_arguments: &'a [u8],
    pub input: &'a [u8],
    pub number: u32,
    pub values: &'a [u8],
    pub output: &'a [u8],
    // The file from the output on.
    pub from_output: &'a [u8],
}

// Most bytes of a record: 1,024 of arguments, input and output each, and the rest of it.
const MOST_BYTES: usize = 3156;

// Bytes of a record before its arguments.
const ARGUMENTS_AT: usize = 44;

// Of a record's arguments no more than these are in a list: a list that goes on after them is empty.
const WORDS: usize = 256;

// Why a record can't be replayed.
#[derive(Clone, Copy, Debug, PartialEq, Eq)]
pub enum Fault {
    CutShort,
    WrongLength,
    TooLong,
    UnknownKind,
    NoMode,
    TooFewArguments,
}

impl fmt::Display for Fault {
    fn fmt<W: fmt::Write>(&self, f: &mut fmt::Formatter<W>) -> fmt::Result {
        f.pad(match self {
            Fault::CutShort => "the file ends before it does",
            Fault::WrongLength => "its parts are not as long as it",
            Fault::TooLong => "it is too long",
            Fault::UnknownKind => "unknown kind",
            Fault::NoMode => "IMODE is no mode",
            Fault::TooFewArguments => "too few arguments",
        })
    }
}

impl Error for Fault {}

// The parts of a record.
#[derive(Clone, Copy)]
struct Parts<'a> {
    kind: u32,
    grid: [u32; 9],
    arguments: &'a [u8],
    input: &'a [u8],
    number: u32,
    values: &'a [u8],
    output: &'a [u8],
}

// The parts that fill these bytes.
fn parts_of(bytes: &[u8]) -> Option<Parts<'_>> {
    let mut words = Words { left: bytes };
    let parts = Parts {
        kind: words.word()?,
        grid: words.words()?,
        arguments: words.list(4)?,
        input: words.list(1)?,
        number: words.word()?,
        values: words.list(4)?,
        output: words.list(1)?,
    };
    words.left.is_empty().then_some(parts)
}

impl<'a> Record<'a> {
    // The next record of a file.
    pub fn read(file: &mut Words<'a>) -> Result<Self, Fault> {
        let from_record = file.left.get(4..).unwrap_or_default();
        let bytes = file.list(1).ok_or(Fault::CutShort)?;
        if bytes.len() > MOST_BYTES {
            return Err(Fault::TooLong);
        }
        let parts = parts_of(bytes).ok_or(Fault::WrongLength)?;
        let output_at = bytes.len().saturating_sub(parts.output.len());
        Ok(Record {
            kind: Kind::try_from(parts.kind)?,
            grid: grid_of(parts.grid)?,
            count: parts.arguments.len() / 4,
            from_arguments: from_record.get(ARGUMENTS_AT..).unwrap_or_default(),
            input: parts.input,
            number: parts.number,
            values: parts.values,
            output: parts.output,
            from_output: from_record.get(output_at..).unwrap_or_default(),
        })
    }

    // The first arguments, as many as a call takes.
    pub fn arguments<const N: usize>(&self) -> Result<[u32; N], Fault> {
        if self.count < N {
            return Err(Fault::TooFewArguments);
        }
        Ok(words_of(self.from_arguments))
    }

    // The first words from the arguments on. Where these are fewer, the file goes on after them.
    pub fn words(&self) -> [u32; WORDS] {
        words_of(self.from_arguments)
    }
}

// A list of bands: 0 for all, which is None here, or 1 and then the bands.
pub fn bands_of(first: u32, bands: &[u32]) -> Option<&[u32]> {
    (first != 0).then_some(bands)
}
