// What a call gave beside the recorded answer.
use crate::records::Record;
use refusals::Refusal;

// Each byte of an output before a call. Those that the answer does not fill must stay so.
pub const BEFORE: u8 = 0xA5;

impl Record<'_> {
    // Has the record this number, these values and so many bytes of output?
    fn holds(&self, number: u32, values: &[usize], bytes: usize) -> bool {
        let (recorded, _) = self.values.as_chunks::<4>();
        let recorded = recorded.iter().map(|v| u32::from_be_bytes(*v) as usize);
        self.number == number && recorded.eq(values.iter().copied()) && self.output.len() == bytes
    }

    // Is this the recorded refusal? Beside 15 the record has the block's row and column.
    pub fn refuses(&self, refusal: Refusal) -> bool {
        match refusal {
            Refusal::UnmarkedBlock { row, column } => {
                self.holds(refusal.number(), &[row, column], 0)
            }
            _ => self.holds(refusal.number(), &[], 0),
        }
    }

    // Is the answer the recorded one? An accepted call gives values and so many bytes of output.
    pub fn has<const N: usize>(&self, answer: Result<([usize; N], usize), Refusal>) -> bool {
        match answer {
            Ok(given) => self.holds(0, &given.0, given.1),
            Err(refusal) => self.refuses(refusal),
        }
    }

    // Does the buffer hold the recorded output, and after it what was there before the call?
    pub fn fills(&self, out: &[u8]) -> bool {
        match out.split_at_checked(self.output.len()) {
            Some((filled, rest)) => filled == self.output && rest.iter().all(|b| *b == BEFORE),
            None => false,
        }
    }
}
