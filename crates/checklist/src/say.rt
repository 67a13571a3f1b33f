// What is printed.
use layout::InterleaveMode;
use refusals::Refusal;
use std::fmt::{self, Display};
use std::io;

// Numbers, with a space before each.
#[derive(Clone, Copy, PartialEq, Eq)]
pub struct Numbers<const N: usize>(pub [usize; N]);

impl<const N: usize> Display for Numbers<N> {
    fn fmt<W: fmt::Write>(&self, f: &mut fmt::Formatter<W>) -> fmt::Result {
        for number in self.0 {
            write!(f, " {number}")?;
        }
        Ok(())
    }
}

// The rows and columns of a read, and its samples of two bytes.
#[derive(Clone, Copy, PartialEq, Eq)]
pub struct Samples {
    pub rows: usize,
    pub columns: usize,
    pub bytes: [u8; 24],
}

// The samples in three hexadecimal digits, with a space before each.
impl Display for Samples {
    fn fmt<W: fmt::Write>(&self, f: &mut fmt::Formatter<W>) -> fmt::Result {
        let (samples, _) = self.bytes.as_chunks::<2>();
        for sample in samples {
            write!(f, " {:03x}", u16::from_be_bytes(*sample))?;
        }
        Ok(())
    }
}

// A line: what came in each mode, and whether it is what was expected.
pub fn say<T: Display + PartialEq + Drop, F: Fn(InterleaveMode) -> Result<T, Refusal>>(
    rt: &impl Print,
    label: &str,
    expected: &T,
    came: F,
) -> io::Result<()>
    requires { F.IsAlwaysCallable came }
{
    print!(rt; "{label}; came")?;
    let mut as_expected = true;
    for mode in InterleaveMode::ALL {
        match came(mode) {
            Ok(value) => {
                print!(rt; " {mode}{value}")?;
                as_expected = as_expected && value == *expected;
            }
            Err(refusal) => {
                print!(rt; " {mode} refused by {}", refusal.number())?;
                as_expected = false;
            }
        }
    }
    let verdict = if as_expected {
        "as expected"
    } else {
        "NOT as expected"
    };
    println!(rt; ": {verdict}")
}
