// The grid of a record, the table of widths, and sizes from document 01, "Where a sample lies".
use crate::records::Fault;
use grid::{EdgeRule, Grid};
use layout::InterleaveMode;
use widths::Widths;

// The table of widths that each call is handed; the original has no other.
pub static STANDARD: Widths = Widths::STANDARD;

// IMODE by the letter's code.
fn mode_of(letter: u32) -> Result<InterleaveMode, Fault> {
    match char::from_u32(letter) {
        Some('B') => Ok(InterleaveMode::B),
        Some('P') => Ok(InterleaveMode::P),
        Some('R') => Ok(InterleaveMode::R),
        Some('S') => Ok(InterleaveMode::S),
        _ => Err(Fault::NoMode),
    }
}

// The grid in nine words; the original has the rule tight.
pub fn grid_of(words: [u32; 9]) -> Result<Grid, Fault> {
    let [nrows, ncols, bands, nbpp, letter, nppbh, nppbv, nbpr, nbpc] = words;
    Ok(Grid {
        nrows,
        ncols,
        bands,
        nbpp,
        imode: mode_of(letter)?,
        edges: EdgeRule::Tight,
        nppbh,
        nppbv,
        nbpr,
        nbpc,
    })
}

// The low 32 bits of a number.
fn low(n: usize) -> u32 {
    (n % 4_294_967_296) as u32
}

// The product of the low 32 bits of two numbers.
fn product(a: usize, b: usize) -> usize {
    low(a) as usize * low(b) as usize
}

fn blocks(grid: Grid) -> usize {
    grid.nbpr as usize * grid.nbpc as usize
}

// Bytes of a sample in lent data.
pub fn sample_bytes(grid: Grid) -> usize {
    (grid.nbpp as usize).div_ceil(8)
}

// Bytes of the image.
pub fn image_bytes(grid: Grid) -> usize {
    let samples = grid.nppbh as usize * grid.nppbv as usize;
    let band_bytes = product(samples, grid.nbpp as usize).div_ceil(8);
    product(product(blocks(grid), grid.bands as usize), band_bytes)
}

// Words that hold the marks.
pub fn mark_words(grid: Grid) -> usize {
    blocks(grid).div_ceil(64)
}

// Bytes of these words.
pub fn mark_bytes(grid: Grid) -> usize {
    product(8, mark_words(grid))
}
