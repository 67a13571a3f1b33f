// Reorderings across the boundary.
ghost use Rattle.std.specs.Prelude.{◌≡◌};
ghost use Rattle.layout.specs.declared.InterleaveMode.TheVariants.{P, S};
ghost use Rattle.layout.specs.Bands.{bands_of};
ghost use Rattle.interleave.specs.Interleave.{every_band, refusal, reorder, reordered_with};
ghost use Rattle.gezdunar.specs.Boundary.{mode_of, on_known};

use crate::names::{asked_bands, named_mode};
use interleave::Reordered;
use refusals::Refusal;

// Samples in the order of a mode, to band-sequential order.
#[unsafe(no_mangle)]
pub extern "C" fn gezdunar_to_band_sequential(
    data: &[u8],
    imode: u8,
    nrows: u32,
    ncols: u32,
    nbands: u32,
    bytes_per_pixel: usize,
    out: &mut [u8],
) -> Reordered
    ensures { reordered_with result out.new ≡ on_known (mode_of imode)
        (λ m. reorder m S every_band nrows ncols nbands bytes_per_pixel «data».now out.old)
        (reordered_with (refusal 99) out.old) }
{
    match named_mode(imode) {
        Some(mode) => Reordered::from(interleave::to_band_sequential(
            data,
            mode,
            nrows,
            ncols,
            nbands,
            bytes_per_pixel,
            out,
        )),
        None => Reordered::from(Err(Refusal::NoMode)),
    }
}

// Samples in band-sequential order, to the order of a mode.
#[unsafe(no_mangle)]
pub extern "C" fn gezdunar_from_band_sequential(
    data: &[u8],
    imode: u8,
    nrows: u32,
    ncols: u32,
    nbands: u32,
    bytes_per_pixel: usize,
    out: &mut [u8],
) -> Reordered
    ensures { reordered_with result out.new ≡ on_known (mode_of imode)
        (λ m. reorder S m every_band nrows ncols nbands bytes_per_pixel «data».now out.old)
        (reordered_with (refusal 99) out.old) }
{
    match named_mode(imode) {
        Some(mode) => Reordered::from(interleave::from_band_sequential(
            data,
            mode,
            nrows,
            ncols,
            nbands,
            bytes_per_pixel,
            out,
        )),
        None => Reordered::from(Err(Refusal::NoMode)),
    }
}

// Bands asked for of samples in the order of P, to band-sequential order.
#[unsafe(no_mangle)]
pub extern "C" fn gezdunar_fused_bip_to_bsq(
    data: &[u8],
    nrows: u32,
    ncols: u32,
    nbands: u32,
    bytes_per_pixel: usize,
    all: bool,
    list: &[u32],
    out: &mut [u8],
) -> Reordered
    ensures { reordered_with result out.new ≡ reorder P S (bands_of all list.now)
        nrows ncols nbands bytes_per_pixel «data».now out.old }
{
    let asked = asked_bands(all, list);
    Reordered::from(interleave::fused_bip_to_bsq(
        data,
        nrows,
        ncols,
        nbands,
        bytes_per_pixel,
        asked,
        out,
    ))
}
