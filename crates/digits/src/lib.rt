// Numbers in decimal digits, the bytes 0x30 to 0x39, high digit first.
#![tactic(auto)]

ghost use Rattle.std.specs.Prelude.{◌≡◌, true, ◌≤◌, length};
ghost use Rattle.digits.specs.Digits.{are_digits, number_of, digit_bytes};

// Are all bytes digits?
pub fn are_digits(bytes: &[u8]) -> bool
    ensures { result ≡ are_digits bytes.now }
{
    bytes.iter().all(|byte| byte.is_ascii_digit())
}

// The number that at most nine digits give.
pub fn number_of(bytes: &[u8]) -> u32
    requires { (length bytes.now ≤ 9) × (are_digits bytes.now ≡ true) }
    ensures { result ≡ number_of bytes.now }
{
    let mut number: u32 = 0;
    for byte in bytes {
        number = number * 10 + (*byte - b'0') as u32;
    }
    number
}

// Fills the bytes with the low digits of a number.
pub fn put_digits(out: &mut [u8], number: u64)
    ensures { out.new ≡ digit_bytes (length out.old) number }
{
    let mut left = number;
    // by number: tried over `out.iter_mut().rev()`, and the proof did not close: it knows no byte of `out` afterwards
    for i in (0..out.len()).rev() {
        out[i] = b'0' + (left % 10) as u8;
        left /= 10;
    }
}
