// Samples out of an image.
ghost use Rattle.std.specs.Prelude.{◌≡◌, ◌*◌, ◌≤◌, ◌<◌, length};
ghost use Rattle.samples.specs.Internal.Row.{InImage, InData, AtBytes, read_at};
ghost use Rattle.samples.specs.Internal.Row.{InImageBytes, InDataBytes, bytes_read_at};

use crate::row::{ByteRow, Row};
use crate::unpack::unpack;
use bits::bytes::{copy, get_be, put_be};

// The samples of a row of whole bytes of `src` go side by side to `out`.
pub fn gather_any(src: &[u8], row: ByteRow, out: &mut [u8])
    requires src_holds { InImageBytes row (length src.now) }
    requires out_holds { InDataBytes row (length out.old) }
    ensures { out.new ≡ bytes_read_at src.now row out.old }
{
    let ByteRow {
        at,
        step,
        size,
        count,
        data_at,
    } = row;
    // by number, the one that both places are said by: chunks of two slices, zipped, are no plainer
    for k in 0..count {
        let v = get_be(src, at + k * step, size);
        put_be(out, data_at + k * size, size, v);
    }
}

// The same, with a loop of its own for each common size, and one copy where the samples stand side by side.
fn gather(src: &[u8], row: ByteRow, out: &mut [u8])
    requires src_holds { InImageBytes row (length src.now) }
    requires out_holds { InDataBytes row (length out.old) }
    ensures { out.new ≡ bytes_read_at src.now row out.old }
{
    if row.step == row.size {
        copy(src, row.at, row.count * row.size, out, row.data_at);
        return;
    }
    // clang compiles a loop for each literal; tried: a helper with a closure, but no proof tells what that did to `out`
    match row.size {
        1 => gather_any(src, row.of_size(1), out),
        2 => gather_any(src, row.of_size(2), out),
        3 => gather_any(src, row.of_size(3), out),
        4 => gather_any(src, row.of_size(4), out),
        8 => gather_any(src, row.of_size(8), out),
        _ => gather_any(src, row, out),
    }
}

// The samples of a row of `src` go side by side to `out`.
pub fn read_samples(src: &[u8], row: Row, out: &mut [u8])
    requires narrow { row.width < 8 * row.size → row.width ≤ 57 }
    requires whole_bytes { AtBytes row }
    requires src_holds { InImage row (length src.now) }
    requires out_holds { InData row (length out.old) }
    ensures { out.new ≡ read_at src.now row out.old }
{
    if row.width == 8 * row.size {
        gather(src, row.bytes(), out)
    } else {
        unpack(src, row, out)
    }
}
