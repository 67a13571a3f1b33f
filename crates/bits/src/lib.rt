// Numbers of 1 to 64 bits at any bit of a byte slice, high bit first.
#![tactic(auto)]

ghost use Rattle.std.specs.Prelude.{◌≡◌, ◌+◌, ◌*◌, ◌/◌, ◌%◌, ◌^◌, ◌≤◌, ◌<◌, length};
ghost use Rattle.bits.specs.Bits.{bits_at, put_bits, with_field};

pub mod bytes;

// The n bits of x from bit `low` up.
fn field(x: u64, low: usize, n: usize) -> u64
    requires { (low < 64) × (n ≤ 8) }
    ensures { result ≡ x / 2 ^ low % 2 ^ n }
{
    (x >> low) & ((1 << n) - 1)
}

// x with v for its n bits from bit `low` up.
fn merge(x: u8, low: usize, n: usize, v: u64) -> u8
    requires { (low + n ≤ 8) × (v < 2 ^ n) }
    ensures { result ≡ with_field x low n v }
{
    let w = x as u64;
    let high = w >> (low + n);
    let mid = (high << n) | v;
    let all = (mid << low) | (w & ((1 << low) - 1));
    all as u8
}

// The number in the `width` bits of `buf` from bit `at` on.
pub fn get_bits(buf: &[u8], at: usize, width: usize) -> u64
    requires { (width ≤ 64) × (at + width ≤ 8 * length buf.now) × (at + width < 2 ^ 64) }
    ensures { result ≡ bits_at buf.now at width }
{
    let mut acc: u64 = 0;
    let mut done: usize = 0;
    // by bytes, which hold unequal numbers of the bits: `successors` would work each step out of the place, no plainer
    while done < width {
        let p = at + done;
        let room = 8 - p % 8;
        let n = room.min(width - done);
        let f = field(buf[p / 8] as u64, room - n, n);
        acc = (acc << n) | f;
        done += n;
    }
    acc
}

// Puts the `width` low bits of `value` into the `width` bits of `buf` from bit `at` on.
pub fn put_bits(buf: &mut [u8], at: usize, width: usize, value: u64)
    requires { (width ≤ 64) × (at + width ≤ 8 * length buf.old) × (at + width < 2 ^ 64) }
    ensures { buf.new ≡ put_bits buf.old at width value }
{
    let mut done: usize = 0;
    // by bytes, as in `get_bits`
    while done < width {
        let p = at + done;
        let room = 8 - p % 8;
        let n = room.min(width - done);
        let f = field(value, width - done - n, n);
        let i = p / 8;
        buf[i] = merge(buf[i], room - n, n, f);
        done += n;
    }
}
