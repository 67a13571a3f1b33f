// Reorderings of a block's samples between the orders of the interleave modes. Samples stay big-endian.
#![tactic(auto)]

ghost use Rattle.std.specs.Prelude.{◌≡◌};
ghost use Rattle.layout.specs.declared.InterleaveMode.TheVariants.{P, S};
ghost use Rattle.layout.specs.Bands.{bands_in};
ghost use Rattle.interleave.specs.Interleave.{every_band, reorder, reordered_of, reordered_with};

use layout::InterleaveMode;
use refusals::Refusal;

mod check;
mod planes;

use crate::check::Counts;
use crate::planes::{from_planes, to_planes};

// What a reordering filled: the bands of the output and its bytes.
#[derive(Clone, Copy, Debug, PartialEq, Eq)]
pub struct Output {
    pub bands: usize,
    pub bytes: usize,
}

// What C is answered by a reordering: the number, and what it filled; zeros beside a refusal.
#[repr(C)]
#[derive(Clone, Copy)]
pub struct Reordered {
    pub number: u32,
    pub bands: usize,
    pub bytes: usize,
}

impl From<Result<Output, Refusal>> for Reordered {
    ghost from_gives = { λ done answer. answer ≡ reordered_of done };

    fn from(done: Result<Output, Refusal>) -> Self {
        match done {
            Ok(output) => Reordered {
                number: 0,
                bands: output.bands,
                bytes: output.bytes,
            },
            Err(refusal) => Reordered {
                number: refusal.number(),
                bands: 0,
                bytes: 0,
            },
        }
    }
}

// The samples of `data`, which stand in the order of a mode, in band-sequential order.
pub fn to_band_sequential(
    data: &[u8],
    from_mode: InterleaveMode,
    nrows: u32,
    ncols: u32,
    nbands: u32,
    bytes_per_pixel: usize,
    out: &mut [u8],
) -> Result<Output, Refusal>
    ensures { reordered_with (reordered_of result) out.new
        ≡ reorder from_mode S every_band nrows ncols nbands bytes_per_pixel
        «data».now out.old }
{
    let counts = Counts::new(nrows, ncols, nbands, bytes_per_pixel);
    to_planes(data, from_mode, counts, None, out)
}

// The samples of `data`, which stand in band-sequential order, in the order of a mode.
pub fn from_band_sequential(
    data: &[u8],
    to_mode: InterleaveMode,
    nrows: u32,
    ncols: u32,
    nbands: u32,
    bytes_per_pixel: usize,
    out: &mut [u8],
) -> Result<Output, Refusal>
    ensures { reordered_with (reordered_of result) out.new
        ≡ reorder S to_mode every_band nrows ncols nbands bytes_per_pixel
        «data».now out.old }
{
    let counts = Counts::new(nrows, ncols, nbands, bytes_per_pixel);
    from_planes(data, to_mode, counts, out)
}

// The bands asked for of `data`, which stands in the order of P, in band-sequential order.
pub fn fused_bip_to_bsq(
    data: &[u8],
    nrows: u32,
    ncols: u32,
    nbands: u32,
    bytes_per_pixel: usize,
    asked: Option<&[u32]>,
    out: &mut [u8],
) -> Result<Output, Refusal>
    ensures { reordered_with (reordered_of result) out.new
        ≡ reorder P S (bands_in asked.entry) nrows ncols nbands bytes_per_pixel
        «data».now out.old }
{
    let counts = Counts::new(nrows, ncols, nbands, bytes_per_pixel);
    to_planes(data, InterleaveMode::P, counts, asked, out)
}
