// What C is answered, from what the calls give.
ghost use Rattle.std.specs.Prelude.{◌≡◌};
ghost use Rattle.mask.specs.Mask.{parsed_of, present_of, offset_of, written_of};

use crate::{BlockOffset, ImageDataMask, Parsed, ParsedMask, Present, Written};
use refusals::Refusal;

impl From<Result<ParsedMask, Refusal>> for Parsed {
    ghost from_gives = { λ given answer. answer ≡ parsed_of given };

    fn from(given: Result<ParsedMask, Refusal>) -> Self {
        match given {
            Ok(parsed) => Self {
                number: 0,
                mask: parsed.mask,
                used: parsed.used,
            },
            Err(refusal) => Self {
                number: refusal.number(),
                mask: ImageDataMask::none(),
                used: 0,
            },
        }
    }
}

impl From<Result<bool, Refusal>> for Present {
    ghost from_gives = { λ given answer. answer ≡ present_of given };

    fn from(given: Result<bool, Refusal>) -> Self {
        match given {
            Ok(present) => Self { number: 0, present },
            Err(refusal) => Self {
                number: refusal.number(),
                present: false,
            },
        }
    }
}

impl From<Result<Option<u32>, Refusal>> for BlockOffset {
    ghost from_gives = { λ given answer. answer ≡ offset_of given };

    fn from(given: Result<Option<u32>, Refusal>) -> Self {
        match given {
            Ok(Some(offset)) => Self {
                number: 0,
                given: true,
                offset,
            },
            Ok(None) => Self {
                number: 0,
                given: false,
                offset: 0,
            },
            Err(refusal) => Self {
                number: refusal.number(),
                given: false,
                offset: 0,
            },
        }
    }
}

impl From<Result<usize, Refusal>> for Written {
    ghost from_gives = { λ given answer. answer ≡ written_of given };

    fn from(given: Result<usize, Refusal>) -> Self {
        match given {
            Ok(bytes) => Self { number: 0, bytes },
            Err(refusal) => Self {
                number: refusal.number(),
                bytes: 0,
            },
        }
    }
}
