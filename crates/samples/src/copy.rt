// Bits copied from any bit of a byte slice to any bit of another.
ghost use Rattle.std.specs.Prelude.{◌≡◌, ◌+◌, ◌*◌, ◌/◌, ◌^◌, ◌≤◌, ◌<◌, length};
ghost use Rattle.bits.specs.Bits.{bits_at, put_bits};

use crate::unpack::get_packed;
use bits::bytes::{get_be, put_be};

// The bits of a turn where a byte of `out` may have to be changed in part: from any bit on they are in eight bytes.
const AT_ONCE: usize = 56;

// Fewer bits than this are copied without words: in two turns.
const FEW: usize = 112;

// The 64 bits of `src` from bit `at` on, out of nine bytes.
fn get_word(src: &[u8], at: usize) -> u64
    requires { at / 8 + 9 ≤ length src.now }
    ensures { result ≡ bits_at src.now at 64 }
{
    let i = at / 8;
    let skipped = at % 8;
    let x = get_be(src, i, 8);
    let last = src[i + 8] as u64;
    // by `|` the last byte alone would depend on `last`, and clang would store each byte by itself
    (x << skipped) + (last >> (8 - skipped))
}

// `count` times 64 bits of `src` from bit `from` on go to index `to` of `out` on, and nothing of `out` is read.
fn copy_words(src: &[u8], from: usize, count: usize, out: &mut [u8], to: usize)
    requires { (from / 8 + 8 * count < length src.now) × (to + 8 * count ≤ length out.old)
        × (from + 64 * count < 2 ^ 63) }
    ensures { out.new ≡ put_bits out.old (8 * to) (64 * count) (bits_at src.now from (64 * count)) }
{
    // by number, the one that both places are said by
    for k in 0..count {
        let v = get_word(src, from + 64 * k);
        put_be(out, to + 8 * k, 8, v);
    }
}

// Puts v, a number of `width` bits, into `out` from bit `at` on, by a change of the eight bytes from their first on.
fn put_by_eight(out: &mut [u8], at: usize, width: usize, v: u64)
    requires out_holds { (0 < width) × (width ≤ 57) × (at / 8 + 8 ≤ length out.old) }
    requires value_fits { v < 2 ^ width }
    ensures { out.new ≡ put_bits out.old at width v }
{
    let i = at / 8;
    let low = 64 - at % 8 - width;
    let x = get_be(out, i, 8);
    let before = (x >> low) & ((1 << width) - 1);
    put_be(out, i, 8, x - (before << low) + (v << low));
}

// The same, also where those eight bytes are not all there.
fn put_some(out: &mut [u8], at: usize, width: usize, v: u64)
    requires out_holds { (0 < width) × (width ≤ 57) × (at + width ≤ 8 * length out.old) × (at + width < 2 ^ 63) }
    requires value_fits { v < 2 ^ width }
    ensures { out.new ≡ put_bits out.old at width v }
{
    if at / 8 + 8 <= out.len() {
        put_by_eight(out, at, width, v)
    } else {
        bits::put_bits(out, at, width, v)
    }
}

// n bits of `src` from bit `from` on go to bit `to` of `out` on, some at once.
fn copy_few(src: &[u8], from: usize, n: usize, out: &mut [u8], to: usize)
    requires { (from + n ≤ 8 * length src.now) × (to + n ≤ 8 * length out.old)
        × (from + n < 2 ^ 63) × (to + n < 2 ^ 63) }
    ensures { out.new ≡ put_bits out.old to n (bits_at src.now from n) }
{
    let mut done = 0;
    while done < n {
        let width = (n - done).min(AT_ONCE);
        put_some(out, to + done, width, get_packed(src, from + done, width));
        done += width;
    }
}

// The same, by words between the first whole byte of `out` and the last.
pub fn copy_bits(src: &[u8], from: usize, n: usize, out: &mut [u8], to: usize)
    requires { (from + n ≤ 8 * length src.now) × (to + n ≤ 8 * length out.old)
        × (from + n < 2 ^ 63) × (to + n < 2 ^ 63) }
    ensures { out.new ≡ put_bits out.old to n (bits_at src.now from n) }
{
    if n < FEW {
        copy_few(src, from, n, out, to);
        return;
    }
    let head = 7 - (to + 7) % 8;
    copy_few(src, from, head, out, to);
    // a word is taken out of nine bytes
    let words = (n - head - 8) / 64;
    copy_words(src, from + head, words, out, (to + head) / 8);
    let done = head + 64 * words;
    copy_few(src, from + done, n - done, out, to + done);
}
