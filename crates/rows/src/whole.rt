// Rows of samples of whole bytes.
ghost use Rattle.std.specs.Prelude.{◌≡◌, ◌+◌, ◌*◌, ◌≤◌, ◌<◌, length};
ghost use Rattle.rows.specs.Internal.Rows.{whole_rows};
ghost use Rattle.rows.specs.Internal.Places.{ByteRowsInImage, ByteRowsInData, whole_rows_at};

use crate::rows::ByteRows;
use bits::bytes::copy;
use samples::read::gather_any;
use samples::row::ByteRow;

// `rows` rows of `count` samples of `size` bytes that stand side by side, from index `at` of `src` to index `to` of
// `out` on. Rows start `row` bytes apart in `src` and `line` bytes apart in `out`. A sample may have any size. A
// call of its own: in line in `moves`, where registers are few, short rows take some 1.05 times as long.
#[inline(never)]
pub fn copy_rows(
    src: &[u8],
    at: usize,
    row: usize,
    size: usize,
    count: usize,
    out: &mut [u8],
    to: usize,
    line: usize,
    rows: usize,
)
    requires src_holds { (0 < rows) × (at + rows * row + count * size ≤ length src.now + row) }
    requires out_holds { to + rows * line + count * size ≤ length out.old + line }
    ensures { out.new ≡ whole_rows src.now at row size size count to line rows
        out.old }
{
    let n = count * size;
    for i in 0..rows {
        copy(src, at + i * row, n, out, to + i * line);
    }
}

// Rows of samples that stand side by side in `src` go to `out`.
pub(crate) fn copy_byte_rows(src: &[u8], rows: ByteRows, out: &mut [u8])
    requires side_by_side { (0 < rows.count) × (rows.first.step ≡ rows.first.size) }
    requires src_holds { ByteRowsInImage rows (length src.now) }
    requires out_holds { ByteRowsInData rows (length out.old) }
    ensures { out.new ≡ whole_rows_at src.now rows out.old }
{
    let first = rows.first;
    copy_rows(
        src,
        first.at,
        rows.apart,
        first.size,
        first.count,
        out,
        first.data_at,
        rows.data_apart,
        rows.count,
    )
}

// Rows of samples of `src` go side by side to `out`.
fn gather_rows_any(src: &[u8], rows: ByteRows, out: &mut [u8])
    requires some { 0 < rows.first.count }
    requires src_holds { ByteRowsInImage rows (length src.now) }
    requires out_holds { ByteRowsInData rows (length out.old) }
    ensures { out.new ≡ whole_rows_at src.now rows out.old }
{
    let first = rows.first;
    // made here: by a method of `rows` clang stores a pointer in each turn, and many short rows that are more than the
    // cache holds take 1.7 times as long
    for i in 0..rows.count {
        let row = ByteRow {
            at: first.at + i * rows.apart,
            step: first.step,
            size: first.size,
            count: first.count,
            data_at: first.data_at + i * rows.data_apart,
        };
        gather_any(src, row, out);
    }
}

// The same, with a loop of its own for each common size.
pub fn gather_rows(src: &[u8], rows: ByteRows, out: &mut [u8])
    requires some { 0 < rows.first.count }
    requires src_holds { ByteRowsInImage rows (length src.now) }
    requires out_holds { ByteRowsInData rows (length out.old) }
    ensures { out.new ≡ whole_rows_at src.now rows out.old }
{
    // a match of its own, as in `samples::read::gather`
    match rows.first.size {
        1 => gather_rows_any(src, rows.of_size(1), out),
        2 => gather_rows_any(src, rows.of_size(2), out),
        3 => gather_rows_any(src, rows.of_size(3), out),
        4 => gather_rows_any(src, rows.of_size(4), out),
        8 => gather_rows_any(src, rows.of_size(8), out),
        _ => gather_rows_any(src, rows, out),
    }
}

// The same of rows of one sample each, side by side in the data: they are gathered as one row.
fn gather_column(src: &[u8], rows: ByteRows, out: &mut [u8])
    requires one_each { (0 < rows.count) × (rows.first.count ≡ 1) × (rows.data_apart ≡ rows.first.size) }
    requires src_holds { ByteRowsInImage rows (length src.now) }
    requires out_holds { ByteRowsInData rows (length out.old) }
    ensures { out.new ≡ whole_rows_at src.now rows out.old }
{
    let column = ByteRow {
        at: rows.first.at,
        step: rows.apart,
        size: rows.first.size,
        count: rows.count,
        data_at: rows.first.data_at,
    };
    let alone = ByteRows {
        first: column,
        count: 1,
        apart: 0,
        data_apart: 0,
    };
    gather_rows(src, alone, out)
}

// The same: copied where the samples stand side by side, and else gathered.
pub fn whole_rows(src: &[u8], rows: ByteRows, out: &mut [u8])
    requires some { (0 < rows.first.count) × (0 < rows.count) }
    requires src_holds { ByteRowsInImage rows (length src.now) }
    requires out_holds { ByteRowsInData rows (length out.old) }
    ensures { out.new ≡ whole_rows_at src.now rows out.old }
{
    if rows.first.count == 1 && rows.data_apart == rows.first.size {
        gather_column(src, rows, out)
    } else if rows.first.step == rows.first.size {
        copy_byte_rows(src, rows, out)
    } else {
        gather_rows(src, rows, out)
    }
}
