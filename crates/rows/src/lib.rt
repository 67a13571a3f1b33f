// Several rows, or several bands of pixels, moved at once.
#![tactic(auto)]

ghost use Rattle.std.specs.Prelude.{◌≡◌, ◌*◌, ◌≤◌, ◌<◌, length};
ghost use Rattle.rows.specs.Internal.Places.{RowsInImage, RowsInData, RowsFit, rows_read_at, rows_written_at};

use rows::Rows;
use samples::read::read_samples;
use samples::write::write_samples;
use whole::{copy_byte_rows, whole_rows};

pub mod listed;
pub mod rows;
pub mod whole;

// Rows of samples of `src` go side by side to `out`, each as `read_samples` reads it.
pub fn read_rows(src: &[u8], rows: Rows, out: &mut [u8])
    requires narrow { rows.first.width < 8 * rows.first.size → rows.first.width ≤ 57 }
    requires movable { RowsInImage rows (length src.now) }
    requires out_holds { RowsInData rows (length out.old) }
    ensures { out.new ≡ rows_read_at src.now rows out.old }
{
    if let Some(row) = rows.as_one() {
        read_samples(src, row, out);
        return;
    }
    // a row of no samples may start outside `src`
    if rows.first.width == 8 * rows.first.size && rows.first.count > 0 {
        whole_rows(src, rows.bytes(), out);
        return;
    }
    for i in 0..rows.count {
        read_samples(src, rows.row(i), out);
    }
}

// Rows of samples that stand side by side in `dat` go to `img`, each as `write_samples` writes it.
pub fn write_rows(dat: &[u8], rows: Rows, img: &mut [u8])
    requires movable { RowsInImage rows (length img.old) }
    requires data_holds { RowsInData rows (length dat.now) }
    requires samples_fit { RowsFit dat.now rows }
    ensures { img.new ≡ rows_written_at dat.now rows img.old }
{
    if let Some(row) = rows.as_one() {
        write_samples(dat, row, img);
        return;
    }
    if rows.first.step == rows.first.width && rows.first.width == 8 * rows.first.size {
        copy_byte_rows(dat, rows.bytes().turned(), img);
        return;
    }
    for i in 0..rows.count {
        write_samples(dat, rows.row(i), img);
    }
}
