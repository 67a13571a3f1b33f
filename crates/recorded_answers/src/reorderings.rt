// Records of the reorderings. They answer whether the call gave what is recorded.
use crate::kinds::Kind;
use crate::records::{Fault, Record, bands_of};
use crate::words::part;

pub fn reordering(r: &Record<'_>, out: &mut [u8]) -> Result<bool, Fault> {
    let [rows, columns, bands, size] = r.arguments::<4>()?;
    let (mode, size) = (r.grid.imode, size as usize);
    let a = match r.kind {
        Kind::ToBandSequential => {
            interleave::to_band_sequential(r.input, mode, rows, columns, bands, size, out)
        }
        Kind::FromBandSequential => {
            interleave::from_band_sequential(r.input, mode, rows, columns, bands, size, out)
        }
        _ => {
            let [_, _, _, _, list] = r.arguments::<5>()?;
            let words = r.words();
            let asked = bands_of(list, part(&words, 5, r.count));
            interleave::fused_bip_to_bsq(r.input, rows, columns, bands, size, asked, out)
        }
    };
    Ok(r.has(a.map(|o| ([], o.bytes))) && r.fills(out))
}
