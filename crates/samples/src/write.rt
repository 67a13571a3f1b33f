// Samples into an image.
ghost use Rattle.std.specs.Prelude.{◌≡◌, ◌*◌, ◌<◌, length};
ghost use Rattle.samples.specs.Internal.Row.{InImage, InData, AtBytes, Fit, written_at};
ghost use Rattle.samples.specs.Internal.Row.{InImageBytes, InDataBytes, bytes_written_at};

use crate::pack::pack;
use crate::row::{ByteRow, Row};
use bits::bytes::{copy, get_be, put_be};

// Samples that stand side by side in `dat` go to a row of whole bytes of `img`.
fn scatter_any(dat: &[u8], row: ByteRow, img: &mut [u8])
    requires data_holds { InDataBytes row (length dat.now) }
    requires image_holds { InImageBytes row (length img.old) }
    ensures { img.new ≡ bytes_written_at dat.now row img.old }
{
    let ByteRow {
        at,
        step,
        size,
        count,
        data_at,
    } = row;
    // by number, as in `gather_any`
    for k in 0..count {
        let v = get_be(dat, data_at + k * size, size);
        put_be(img, at + k * step, size, v);
    }
}

// The same, with a loop of its own for each common size, and one copy where the samples stand side by side.
fn scatter(dat: &[u8], row: ByteRow, img: &mut [u8])
    requires data_holds { InDataBytes row (length dat.now) }
    requires image_holds { InImageBytes row (length img.old) }
    ensures { img.new ≡ bytes_written_at dat.now row img.old }
{
    if row.step == row.size {
        copy(dat, row.data_at, row.count * row.size, img, row.at);
        return;
    }
    // a match of its own, as in `gather`
    match row.size {
        1 => scatter_any(dat, row.of_size(1), img),
        2 => scatter_any(dat, row.of_size(2), img),
        3 => scatter_any(dat, row.of_size(3), img),
        4 => scatter_any(dat, row.of_size(4), img),
        8 => scatter_any(dat, row.of_size(8), img),
        _ => scatter_any(dat, row, img),
    }
}

// Samples that stand side by side in `dat` go to a row of `img`.
pub fn write_samples(dat: &[u8], row: Row, img: &mut [u8])
    requires data_holds { InData row (length dat.now) }
    requires whole_bytes { AtBytes row }
    requires image_holds { InImage row (length img.old) }
    requires samples_fit { row.width < 8 * row.size → Fit dat.now row }
    ensures { img.new ≡ written_at dat.now row img.old }
{
    if row.width == 8 * row.size {
        scatter(dat, row.bytes(), img)
    } else {
        pack(dat, row, img)
    }
}
