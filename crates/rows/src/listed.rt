// Listed bands out of pixels, pixel by pixel: the bands of a pixel share their cache lines.
ghost use Rattle.std.specs.Prelude.{◌≡◌, ◌<◌, length};
ghost use Rattle.rows.specs.Internal.Places.{ListedIn, listed_pixel_at, listed_at};

use bits::bytes::{get_be, put_be};
use samples::row::ByteRow;

// The listed bands of pixel c of `src`, in which the samples of all bands stand side by side, go to `out`, `plane`
// bytes apart. `row` has the samples of band 0.
fn gather_pixel(src: &[u8], row: ByteRow, c: usize, list: &[u32], out: &mut [u8], plane: usize)
    requires holds { ListedIn (length src.now) (length out.old) list.now row plane }
    requires pixel { c < row.count }
    ensures { out.new ≡ listed_pixel_at src.now list.now row plane c out.old }
{
    let size = row.size;
    let at = row.at + c * row.step;
    let to = row.data_at + c * size;
    for (k, band) in list.iter().enumerate() {
        let v = get_be(src, at + *band as usize * size, size);
        put_be(out, to + k * plane, size, v);
    }
}

// The listed bands of all pixels. A band's samples go side by side to `out`.
fn gather_listed_any(src: &[u8], row: ByteRow, list: &[u32], out: &mut [u8], plane: usize)
    requires { ListedIn (length src.now) (length out.old) list.now row plane }
    ensures { out.new ≡ listed_at src.now list.now row plane out.old }
{
    for c in 0..row.count {
        gather_pixel(src, row, c, list, out, plane);
    }
}

// The same, with a loop of its own for each common size.
pub fn gather_listed(src: &[u8], row: ByteRow, list: &[u32], out: &mut [u8], plane: usize)
    requires { ListedIn (length src.now) (length out.old) list.now row plane }
    ensures { out.new ≡ listed_at src.now list.now row plane out.old }
{
    // a match of its own, as in `samples::read::gather`
    match row.size {
        1 => gather_listed_any(src, row.of_size(1), list, out, plane),
        2 => gather_listed_any(src, row.of_size(2), list, out, plane),
        3 => gather_listed_any(src, row.of_size(3), list, out, plane),
        4 => gather_listed_any(src, row.of_size(4), list, out, plane),
        8 => gather_listed_any(src, row.of_size(8), list, out, plane),
        _ => gather_listed_any(src, row, list, out, plane),
    }
}
