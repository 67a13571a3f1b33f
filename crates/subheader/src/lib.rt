// Three parts of an image subheader, as MIL-STD-2500C has their fields: NROWS to PJUST, IC, and IMODE to NBPP.

#![tactic(auto)]

mod read;
mod write;

use fields::named::{ImageCompression, PixelJustification, PixelValueType};
use grid::Grid;
pub use read::named_value;

// The fields of the three parts. IREP and ICAT are carried unread.
#[derive(Clone, Copy, Debug, PartialEq, Eq)]
pub struct ImageSubheader {
    pub pvtype: PixelValueType,
    pub irep: [u8; 8],
    pub icat: [u8; 8],
    // Bits of a sample that are used.
    pub abpp: u32,
    pub pjust: PixelJustification,
    pub ic: ImageCompression,
    pub grid: Grid,
}

impl ImageSubheader {
    // The bytes of the three parts.
    pub const FIRST_BYTES: usize = 38;

    pub const SECOND_BYTES: usize = 2;

    pub const THIRD_BYTES: usize = 19;

    // The greatest ABPP that is written.
    pub const MAX_ABPP: u32 = 99;
}
