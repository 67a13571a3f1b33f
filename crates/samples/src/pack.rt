// Samples of any width into an image.
ghost use Rattle.std.specs.Prelude.{◌≡◌, ◌+◌, ◌-◌, ◌*◌, ◌/◌, ◌%◌, ◌^◌, ◌≤◌, ◌<◌, length};
ghost use Rattle.bits.specs.Bits.{put_bits, with_field};
ghost use Rattle.bits.specs.Values.{side_by_side};
ghost use Rattle.samples.specs.Internal.Samples.{samples_written, SamplesFit};
ghost use Rattle.samples.specs.Internal.Row.{InImage, InData, Packed, written_at};
ghost use Rattle.samples.specs.Internal.Groups.{joined};

use crate::row::Row;
use bits::bytes::{get_be, put_be};

// x followed by v, a number of `width` bits.
fn append(x: u64, width: usize, v: u64) -> u64
    requires { (width < 64) × (x < 2 ^ (64 - width)) × (v < 2 ^ width) }
    ensures { result ≡ x * 2 ^ width + v }
{
    (x << width) | v
}

// x with v for its `width` bits from bit `low` up.
fn exchange(x: u64, low: usize, width: usize, v: u64) -> u64
    requires { (low + width < 64) × (v < 2 ^ width) }
    ensures { result ≡ with_field x low width v }
{
    let high = append(x >> (low + width), width, v);
    append(high, low, x & ((1 << low) - 1))
}

// Puts v, a number of `width` bits, into `img` from bit `at` on, by a change of the n bytes from their first byte on.
fn put_packed(img: &mut [u8], at: usize, width: usize, n: usize, v: u64)
    requires image_holds { (width + 7 ≤ 8 * n) × (n < 8) × (at / 8 + n ≤ length img.old) }
    requires value_fits { v < 2 ^ width }
    ensures { img.new ≡ put_bits img.old at width v }
{
    let i = at / 8;
    let x = get_be(img, i, n);
    put_be(img, i, n, exchange(x, 8 * n - at % 8 - width, width, v));
}

// Samples that stand side by side in `dat`: their low bits go to a row of `img`.
fn pack_by_bits(dat: &[u8], row: Row, img: &mut [u8])
    requires data_holds { InData row (length dat.now) }
    requires image_holds { InImage row (length img.old) }
    ensures { img.new ≡ written_at dat.now row img.old }
{
    let Row {
        at,
        step,
        width,
        size,
        count,
        data_at,
    } = row;
    // by number: a range in steps of bits, zipped with chunks of bytes, is no plainer
    for k in 0..count {
        let v = get_be(dat, data_at + k * size, size);
        bits::put_bits(img, at + k * step, width, v);
    }
}

// The same for samples without bits above their width, by a change of `size` + 1 bytes at once for each. In line, since
// it is compiled for each size apart only there.
#[inline(always)]
fn pack_by_bytes(dat: &[u8], row: Row, img: &mut [u8])
    requires data_holds { InData row (length dat.now) }
    requires image_holds { (row.size < 7) × ((row.at + row.count * row.step) / 8 + row.size < length img.old) }
    requires samples_fit { Packed dat.now row }
    ensures { img.new ≡ written_at dat.now row img.old }
{
    let Row {
        at,
        step,
        width,
        size,
        count,
        data_at,
    } = row;
    // by number: a range in steps of bits, zipped with chunks of bytes, is no plainer
    for k in 0..count {
        let v = get_be(dat, data_at + k * size, size);
        put_packed(img, at + k * step, width, size + 1, v);
    }
}

// The same: by bytes where those of every sample are inside `img`, with a loop of its own for each common size; else by
// bits.
fn pack_each(dat: &[u8], row: Row, img: &mut [u8])
    requires data_holds { InData row (length dat.now) }
    requires image_holds { InImage row (length img.old) }
    requires samples_fit { Packed dat.now row }
    ensures { img.new ≡ written_at dat.now row img.old }
{
    if (row.at + row.count * row.step) / 8 + row.size >= img.len() {
        pack_by_bits(dat, row, img);
        return;
    }
    // samples of one byte may lie closer than two bytes, and then each change would wait for the store before it
    match row.size {
        2 => pack_by_bytes(dat, row.of_size(2), img),
        4 => pack_by_bytes(dat, row.of_size(4), img),
        _ => pack_by_bits(dat, row, img),
    }
}

// Groups of samples side by side, each of which fills whole bytes.
#[derive(Clone, Copy)]
struct Groups {
    // The index of their first byte in the image.
    at: usize,
    // Bits of a sample in the image, and its big-endian bytes in the data.
    width: usize,
    size: usize,
    // The samples of a group, the bytes that they fill, and how many groups.
    samples: usize,
    bytes: usize,
    count: usize,
    // The index of the first sample in the data.
    data_at: usize,
    ghost size_fits: { size ≤ 8 },
    ghost width_fits: { width < 64 },
    ghost whole_bytes: { samples * width ≡ 8 * bytes },
    ghost bytes_fit: { bytes ≤ 8 },
}

impl Groups {
    // The same with `size`, which is their own: a literal is then known to the loop they go to.
    fn of_size(self, size: usize) -> Groups
        requires { size ≡ self.size }
        ensures { result ≡ self }
    {
        Groups {
            at: self.at,
            width: self.width,
            size,
            samples: self.samples,
            bytes: self.bytes,
            count: self.count,
            data_at: self.data_at,
        }
    }

    // The same of pairs of 12 bits in two bytes each, with their numbers as literals.
    fn pairs(self) -> Groups
        requires { (self.size ≡ 2) × (self.width ≡ 12) × (self.samples ≡ 2) }
        ensures { result ≡ self }
    {
        Groups {
            at: self.at,
            width: 12,
            size: 2,
            samples: 2,
            bytes: 3,
            count: self.count,
            data_at: self.data_at,
        }
    }
}

// The samples of a group, from index `from` of `dat` on, as one number.
fn join(dat: &[u8], from: usize, groups: Groups) -> u64
    requires data_holds { from + groups.samples * groups.size ≤ length dat.now }
    requires samples_fit { SamplesFit dat.now from groups.size groups.width groups.samples }
    ensures { result ≡ joined (side_by_side dat.now from groups.size) groups.width groups.samples }
{
    let mut acc: u64 = 0;
    // by number: over chunks the proof goes back from each to its place in `dat`, no plainer
    for k in 0..groups.samples {
        let v = get_be(dat, from + k * groups.size, groups.size);
        acc = append(acc, groups.width, v);
    }
    acc
}

// Groups of samples that stand side by side in `dat` go to `img`.
fn pack_groups_any(dat: &[u8], groups: Groups, img: &mut [u8])
    requires data_holds { groups.data_at + groups.count * (groups.samples * groups.size) ≤ length dat.now }
    requires image_holds { groups.at + groups.count * groups.bytes ≤ length img.old }
    requires samples_fit { SamplesFit dat.now groups.data_at groups.size groups.width (groups.count * groups.samples) }
    ensures { img.new
        ≡ samples_written dat.now groups.data_at groups.size groups.width (8 * groups.at) groups.width
        (groups.count * groups.samples) img.old }
{
    // by number, the one that both places are said by: chunks of two slices, zipped, are no plainer
    for k in 0..groups.count {
        let from = groups.data_at + k * (groups.samples * groups.size);
        let v = join(dat, from, groups);
        put_be(img, groups.at + k * groups.bytes, groups.bytes, v);
    }
}

// The same, with a loop of its own for pairs of 12 bits and for each common size.
fn pack_groups(dat: &[u8], groups: Groups, img: &mut [u8])
    requires data_holds { groups.data_at + groups.count * (groups.samples * groups.size) ≤ length dat.now }
    requires image_holds { groups.at + groups.count * groups.bytes ≤ length img.old }
    requires samples_fit { SamplesFit dat.now groups.data_at groups.size groups.width (groups.count * groups.samples) }
    ensures { img.new
        ≡ samples_written dat.now groups.data_at groups.size groups.width (8 * groups.at) groups.width
        (groups.count * groups.samples) img.old }
{
    if groups.size == 2 && groups.width == 12 && groups.samples == 2 {
        pack_groups_any(dat, groups.pairs(), img);
        return;
    }
    // clang compiles the loop for each literal
    match groups.size {
        1 => pack_groups_any(dat, groups.of_size(1), img),
        2 => pack_groups_any(dat, groups.of_size(2), img),
        4 => pack_groups_any(dat, groups.of_size(4), img),
        _ => pack_groups_any(dat, groups, img),
    }
}

// The fewest samples that together fill whole bytes.
fn group_of(width: usize) -> usize
    requires { width < 64 }
    ensures { (0 < result) × (result * width ≤ 8 * width) × (result * width % 8 ≡ 0) }
{
    if width % 8 == 0 {
        1
    } else if width % 4 == 0 {
        2
    } else if width % 2 == 0 {
        4
    } else {
        8
    }
}

// How many samples of a row come before one that starts at a whole byte; all of them if none does.
fn before_byte(row: Row) -> usize
    ensures { result ≤ row.count }
{
    (0..row.count)
        .find(|k| (row.at + *k * row.step) % 8 == 0)
        .unwrap_or(row.count)
}

// Samples side by side in `img`: in groups where the first starts at a whole byte and a group fits a number, and the
// rest one by one.
fn pack_grouped(dat: &[u8], row: Row, img: &mut [u8])
    requires side_by_side { row.step ≡ row.width }
    requires data_holds { InData row (length dat.now) }
    requires image_holds { InImage row (length img.old) }
    requires samples_fit { Packed dat.now row }
    ensures { img.new ≡ written_at dat.now row img.old }
{
    let group = group_of(row.width);
    let bytes = group * row.width / 8;
    if row.at % 8 == 0 && bytes <= 8 {
        let n = row.count / group;
        let groups = Groups {
            at: row.at / 8,
            width: row.width,
            size: row.size,
            samples: group,
            bytes,
            count: n,
            data_at: row.data_at,
        };
        pack_groups(dat, groups, img);
        pack_each(dat, row.skip(n * group), img);
    } else {
        pack_each(dat, row, img);
    }
}

// Samples side by side in `img`: one by one up to a whole byte, and then in groups.
fn pack_side_by_side(dat: &[u8], row: Row, img: &mut [u8])
    requires side_by_side { row.step ≡ row.width }
    requires data_holds { InData row (length dat.now) }
    requires image_holds { InImage row (length img.old) }
    requires samples_fit { Packed dat.now row }
    ensures { img.new ≡ written_at dat.now row img.old }
{
    let head = before_byte(row);
    pack_each(dat, row.first(head), img);
    pack_grouped(dat, row.skip(head), img);
}

// Samples without bits above their width, which stand side by side in `dat`, go to a row of `img`.
pub fn pack(dat: &[u8], row: Row, img: &mut [u8])
    requires data_holds { InData row (length dat.now) }
    requires image_holds { InImage row (length img.old) }
    requires samples_fit { Packed dat.now row }
    ensures { img.new ≡ written_at dat.now row img.old }
{
    if row.step == row.width {
        pack_side_by_side(dat, row, img)
    } else {
        pack_each(dat, row, img)
    }
}
