// Samples of any width out of an image.
ghost use Rattle.std.specs.Prelude.{◌≡◌, ◌+◌, ◌*◌, ◌/◌, ◌%◌, ◌^◌, ◌≤◌, ◌<◌, length};
ghost use Rattle.bits.specs.Bits.{bits_at};
ghost use Rattle.samples.specs.Internal.Row.{InImage, InData, EightEach, read_at};

use crate::row::Row;
use bits::bytes::{get_be, put_be};

// The number in the `width` bits of `src` from bit `at` on, out of the eight bytes from its first on.
fn get_by_eight(src: &[u8], at: usize, width: usize) -> u64
    requires { (width ≤ 57) × (at / 8 + 8 ≤ length src.now) }
    ensures { result ≡ bits_at src.now at width }
{
    let x = get_be(src, at / 8, 8);
    // `% 64` matters only where no bits are asked for
    (x >> ((64 - at % 8 - width) % 64)) & ((1 << width) - 1)
}

// The same, also where those eight bytes are not all there.
pub(crate) fn get_packed(src: &[u8], at: usize, width: usize) -> u64
    requires { (width ≤ 57) × (at + width ≤ 8 * length src.now) × (at + width < 2 ^ 64) }
    ensures { result ≡ bits_at src.now at width }
{
    if at / 8 + 8 <= src.len() {
        get_by_eight(src, at, width)
    } else {
        bits::get_bits(src, at, width)
    }
}

// The samples of a row of `src` go side by side to `out`. Eight bytes are there for each: a test for them would make
// the loop too large to be compiled for each size apart.
fn unpack_by_eight_any(src: &[u8], row: Row, out: &mut [u8])
    requires narrow { row.width ≤ 57 }
    requires eight_each { EightEach row (length src.now) }
    requires out_holds { InData row (length out.old) }
    ensures { out.new ≡ read_at src.now row out.old }
{
    let Row {
        at,
        step,
        width,
        size,
        count,
        data_at,
    } = row;
    // by number: a range in steps of bits, zipped with chunks of bytes, is no plainer
    for k in 0..count {
        let v = get_by_eight(src, at + k * step, width);
        put_be(out, data_at + k * size, size, v);
    }
}

// The same, with a loop of its own for each common size.
fn unpack_by_eight(src: &[u8], row: Row, out: &mut [u8])
    requires narrow { row.width ≤ 57 }
    requires eight_each { EightEach row (length src.now) }
    requires out_holds { InData row (length out.old) }
    ensures { out.new ≡ read_at src.now row out.old }
{
    // clang compiles the loop for each literal
    match row.size {
        1 => unpack_by_eight_any(src, row.of_size(1), out),
        2 => unpack_by_eight_any(src, row.of_size(2), out),
        4 => unpack_by_eight_any(src, row.of_size(4), out),
        _ => unpack_by_eight_any(src, row, out),
    }
}

// The same, also where eight bytes are not there for each.
fn unpack_rest(src: &[u8], row: Row, out: &mut [u8])
    requires narrow { row.width ≤ 57 }
    requires src_holds { InImage row (length src.now) }
    requires out_holds { InData row (length out.old) }
    ensures { out.new ≡ read_at src.now row out.old }
{
    let Row {
        at,
        step,
        width,
        size,
        count,
        data_at,
    } = row;
    // by number: a range in steps of bits, zipped with chunks of bytes, is no plainer
    for k in 0..count {
        let v = get_packed(src, at + k * step, width);
        put_be(out, data_at + k * size, size, v);
    }
}

// How many samples of a row in `bytes` bytes are taken by eight bytes: all, all but the last 64, or none.
fn count_by_eight(bytes: usize, row: Row) -> usize
    ensures { (result ≤ row.count) × ((0 < result → (row.at + result * row.step) / 8 + 8 ≤ bytes)) }
{
    if (row.at + row.count * row.step) / 8 + 8 <= bytes {
        return row.count;
    }
    if row.count <= 64 {
        return 0;
    }
    let most = row.count - 64;
    if (row.at + most * row.step) / 8 + 8 <= bytes {
        most
    } else {
        0
    }
}

// The same as `unpack_rest`, by eight bytes as far as they are there.
pub(crate) fn unpack(src: &[u8], row: Row, out: &mut [u8])
    requires narrow { row.width ≤ 57 }
    requires src_holds { InImage row (length src.now) }
    requires out_holds { InData row (length out.old) }
    ensures { out.new ≡ read_at src.now row out.old }
{
    let most = count_by_eight(src.len(), row);
    unpack_by_eight(src, row.first(most), out);
    unpack_rest(src, row.skip(most), out);
}
