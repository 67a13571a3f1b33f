// Whether samples have no bit above their width. A size stays a number, not a type that is above 0: it is one parameter
// of a few functions, and the public one takes a number.
#![tactic(auto)]

ghost use Rattle.std.specs.Prelude.{◌≡◌, ℕ, ◌+◌, ◌*◌, ◌/◌, ◌%◌, ◌^◌, max, ◌≤◌, ◌<◌, ltb, [], length, get_or};
ghost use Rattle.common.specs.Tests.{all_below};
ghost use Rattle.bits.specs.Bits.{be_at};
ghost use Rattle.fits.specs.Internal.Rows.{first_bytes_below, greatest_of_four};

// The bytes of a row. Four rows are compared at once.
const ROW: usize = 128;

const FOUR_ROWS: usize = 4 * ROW;

// The greatest byte at place j of four rows.
#[tactic(auto, unfolding(crate::specs::Internal::Rows::greatest_of_four))]
fn greatest_of_four(four: &[u8; FOUR_ROWS], j: usize) -> u8
    requires { j < 128 }
    ensures { result ≡ greatest_of_four four.now j }
{
    let first = four[j].max(four[ROW + j]);
    let second = four[2 * ROW + j].max(four[3 * ROW + j]);
    first.max(second)
}

// Each byte of `tops` becomes the greatest of it and the bytes at its place of four rows.
fn raise(tops: &mut [u8; ROW], four: &[u8; FOUR_ROWS])
    ensures { (j : ℕ) → j < 128 → get_or tops.new j 0 ≡ max (get_or tops.old j 0) (greatest_of_four four.now j) }
{
    for (j, top) in tops.iter_mut().enumerate() {
        *top = (*top).max(greatest_of_four(four, j));
    }
}

// Are the first bytes of the whole samples of `size` bytes in `bytes` below the limit?
fn all_below(bytes: &[u8], size: usize, limit: u8) -> bool
    requires { 0 < size }
    ensures { result ≡ first_bytes_below bytes.now size limit }
{
    bytes.chunks_exact(size).all(|sample| sample[0] < limit)
}

// The same of so many times four rows. A row holds whole samples.
fn fours_below(fours: &[[u8; FOUR_ROWS]], size: usize, limit: u8) -> bool
    requires { (0 < size) × (128 % size ≡ 0) × (0 < limit) }
    ensures { result ≡ all_below (length fours.now)
        (λ q. first_bytes_below (get_or fours.now q []) size limit) }
{
    if fours.is_empty() {
        return true;
    }
    let mut tops = [0; ROW];
    for four in fours {
        raise(&mut tops, four);
    }
    all_below(&tops, size, limit)
}

// The same, by four rows at once where a row holds whole samples.
fn first_bytes_below(dat: &[u8], size: usize, limit: u8) -> bool
    requires { (0 < size) × (0 < limit) }
    ensures { result ≡ first_bytes_below dat.now size limit }
{
    if ROW % size != 0 {
        return all_below(dat, size, limit);
    }
    let (fours, rest) = dat.as_chunks::<FOUR_ROWS>();
    fours_below(fours, size, limit) && all_below(rest, size, limit)
}

// Have the samples of `size` bytes in `dat`, side by side, no bit above their low `width`? Such a bit is in a sample's
// first byte.
pub fn all_fit(dat: &[u8], size: usize, width: usize) -> bool
    requires { (0 < size) × (size ≤ 8) × (8 * size < width + 8) × (width ≤ 8 * size) }
    ensures { result ≡ all_below (length dat.now / size)
        (λ k. ltb (be_at dat.now (k * size) size) (2 ^ width)) }
{
    if width == 8 * size {
        return true;
    }
    let limit: u8 = 1 << (width + 8 - 8 * size);
    first_bytes_below(dat, size, limit)
}
