// Records of block reads, whole blocks and windows. Each answers whether the call gave what is recorded.
use crate::grids::{STANDARD, sample_bytes};
use crate::records::{Fault, Record, bands_of};
use crate::words::part;
use calls::Extent;
use windows::Rectangle;

// The bytes of so many samples, of so many bytes each.
fn extent_bytes(e: Extent, size: usize) -> usize {
    e.bands
        .saturating_mul(e.rows)
        .saturating_mul(e.columns)
        .saturating_mul(size)
}

pub fn block_read(r: &Record<'_>, out: &mut [u8]) -> Result<bool, Fault> {
    let [row, column, level, list] = r.arguments::<4>()?;
    let words = r.words();
    let bands = bands_of(list, part(&words, 4, r.count));
    let read = reading::decode_block(r.input, r.grid, &STANDARD, row, column, level, bands, out);
    let size = sample_bytes(r.grid);
    let answer = read.map(|e| ([e.bands, e.rows, e.columns], extent_bytes(e, size)));
    Ok(r.has(answer) && r.fills(out))
}

pub fn whole_block(r: &Record<'_>) -> Result<bool, Fault> {
    let [row, column] = r.arguments::<2>()?;
    let span = reading::whole::find_whole(r.input, r.grid, &STANDARD, row, column);
    let whole = reading::whole::whole_block(r.input, r.grid, &STANDARD, row, column);
    Ok(r.has(span.map(|s| ([], s.length))) && whole == r.output)
}

pub fn window(r: &Record<'_>, out: &mut [u8]) -> Result<bool, Fault> {
    let [row, column, rows, columns, list] = r.arguments::<5>()?;
    let words = r.words();
    let bands = bands_of(list, part(&words, 5, r.count));
    let area = Rectangle {
        row,
        column,
        rows,
        columns,
    };
    let read = windows::read_window(r.input, r.grid, &STANDARD, area, bands, out);
    let size = sample_bytes(r.grid);
    Ok(r.has(read.map(|e| ([], extent_bytes(e, size)))) && r.fills(out))
}
