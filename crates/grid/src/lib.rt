// The grid of a picture: MIL-STD-2500C's fields, their limits, sizes, and where a sample lies.
#![tactic(auto)]

ghost use Rattle.grid.specs.Check.{Accepted};
ghost use Rattle.grid.specs.Layout.{Block};

mod check;
pub mod places;
mod sizes;

use layout::InterleaveMode;
use std::fmt;

// How the runs of an edge block lie where NBPP is no multiple of 8. Byte multiples lie the same under both rules.
#[derive(Clone, Copy, Debug, PartialEq, Eq)]
pub enum EdgeRule {
    // Its actual rows and columns, without gaps.
    Tight,
    // The rows and columns of a full block, zeros outside the picture.
    Full,
}

impl EdgeRule {
    pub const ALL: [EdgeRule; 2] = [Self::Tight, Self::Full];
}

impl fmt::Display for EdgeRule {
    fn fmt<W: fmt::Write>(&self, f: &mut fmt::Formatter<W>) -> fmt::Result {
        match self {
            Self::Tight => write!(f, "tight"),
            Self::Full => write!(f, "full"),
        }
    }
}

// What a call is told of a picture.
#[derive(Clone, Copy, Debug, PartialEq, Eq)]
pub struct Grid {
    // Rows and columns of the picture.
    pub nrows: u32,
    pub ncols: u32,
    pub bands: u32,
    // Bits per sample.
    pub nbpp: u32,
    pub imode: InterleaveMode,
    pub edges: EdgeRule,
    // Columns and rows of a block.
    pub nppbh: u32,
    pub nppbv: u32,
    // Blocks across and down.
    pub nbpr: u32,
    pub nbpc: u32,
}

// A grid that questions 1 to 4 accept with some table of widths.
#[derive(Clone, Copy)]
pub struct AcceptedGrid {
    pub grid: Grid,
    pub ghost accepted: { Accepted grid },
}

// A block of an accepted grid: its block row and block column.
#[derive(Clone, Copy)]
pub struct GridBlock {
    pub grid: AcceptedGrid,
    pub row: usize,
    pub column: usize,
    pub ghost inside: { Block grid.grid row column },
}
