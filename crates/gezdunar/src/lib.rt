// The C boundary: one function for each call, over the proved entry points. Slices cross as a pointer and a length,
// the grid as a struct of its numbers, the table of widths as its entries; a byte that is no mode, or no edge rule, is
// refused with 99, before question 1.
// C has neither Result nor Option: an answer is a struct with the number first, and bands are `all` and a list.
#![tactic(auto)]

mod masks;
mod names;
mod reads;
mod reorderings;
mod sizes;
mod subheaders;
mod tables;
mod writes;

// The grid's numbers, IMODE as its letter's byte, and the edge rule as T or F.
#[repr(C)]
#[derive(Clone, Copy)]
pub struct GridNumbers {
    pub nrows: u32,
    pub ncols: u32,
    pub bands: u32,
    pub nbpp: u32,
    pub imode: u8,
    pub edges: u8,
    pub nppbh: u32,
    pub nppbv: u32,
    pub nbpr: u32,
    pub nbpc: u32,
}

// The fields of an image subheader, named values as their bytes.
#[repr(C)]
#[derive(Clone, Copy)]
pub struct SubheaderBytes {
    pub pvtype: [u8; 3],
    pub irep: [u8; 8],
    pub icat: [u8; 8],
    pub abpp: u32,
    pub pjust: u8,
    pub ic: [u8; 2],
    pub grid: GridNumbers,
}

// What the reader of a subheader answers.
#[repr(C)]
#[derive(Clone, Copy)]
pub struct SubheaderAnswer {
    pub number: u32,
    pub subheader: SubheaderBytes,
}

// The number of a re-lay, and the grid in force after it: under full, or beside a refusal the one that was given.
#[repr(C)]
#[derive(Clone, Copy)]
pub struct RelayAnswer {
    pub number: u32,
    pub grid: GridNumbers,
}

// The number of a loading, and the table's entries for NBPP 0 to 64.
#[repr(C)]
#[derive(Clone, Copy)]
pub struct WidthsAnswer {
    pub number: u32,
    pub entries: [u8; 65],
}

// Where a part of the image lies, and the call's number.
#[repr(C)]
#[derive(Clone, Copy)]
pub struct Place {
    pub number: u32,
    pub start: usize,
    pub length: usize,
}

// Sizes of a grid, and its number: bytes of a sample in lent data, of a band of a block, of a block, of the image, the
// blocks of the picture and the words for their marks.
#[repr(C)]
#[derive(Clone, Copy)]
pub struct GridSizes {
    pub number: u32,
    pub sample_bytes: usize,
    pub band_bytes: usize,
    pub block_bytes: usize,
    pub image_bytes: usize,
    pub blocks: usize,
    pub mark_words: usize,
}
