// The fields of three parts of an image subheader: where each stands, and how it is read and written.
#![tactic(auto)]

ghost use Rattle.std.specs.Prelude.{◌≡◌, true, ◌+◌, ◌≤◌, length};
ghost use Rattle.fields.specs.Fields.{bytes_in, is_number, number_in, put, number, text as text_entry};

use bits::bytes::copy;
use digits::{are_digits, number_of, put_digits};

pub mod named;
pub mod sides;

// A field: its first byte in its part, and its bytes. That a part holds it stands in contracts: the fields are
// constants, and parts are lent.
#[derive(Clone, Copy)]
pub struct Field {
    pub at: usize,
    pub size: usize,
}

impl Field {
    pub const NROWS: Field = Field { at: 0, size: 8 };

    pub const NCOLS: Field = Field { at: 8, size: 8 };

    pub const PVTYPE: Field = Field { at: 16, size: 3 };

    pub const IREP: Field = Field { at: 19, size: 8 };

    pub const ICAT: Field = Field { at: 27, size: 8 };

    pub const ABPP: Field = Field { at: 35, size: 2 };

    pub const PJUST: Field = Field { at: 37, size: 1 };

    pub const IC: Field = Field { at: 0, size: 2 };

    pub const IMODE: Field = Field { at: 0, size: 1 };

    pub const NBPR: Field = Field { at: 1, size: 4 };

    pub const NBPC: Field = Field { at: 5, size: 4 };

    pub const NPPBH: Field = Field { at: 9, size: 4 };

    pub const NPPBV: Field = Field { at: 13, size: 4 };

    pub const NBPP: Field = Field { at: 17, size: 2 };

    // The field's bytes.
    #[tactic(auto, unfolding(crate::specs::Fields::bytes_in))]
    pub fn bytes_in(self, part: &[u8]) -> &[u8]
        requires { self.at + self.size ≤ length part.now }
        ensures same { result.now ≡ bytes_in part.now self }
        ensures long { length result.now ≡ self.size }
    {
        &part[self.at..self.at + self.size]
    }

    // Are they all digits?
    pub fn is_number(self, part: &[u8]) -> bool
        requires { self.at + self.size ≤ length part.now }
        ensures { result ≡ is_number part.now self }
    {
        are_digits(self.bytes_in(part))
    }

    // The number that they give.
    pub fn number_in(self, part: &[u8]) -> u32
        requires in_part { (self.at + self.size ≤ length part.now) × (self.size ≤ 9) }
        requires digits { is_number part.now self ≡ true }
        ensures { result ≡ number_in part.now self }
    {
        number_of(self.bytes_in(part))
    }

    // Puts a number's digits.
    pub fn put_number(self, part: &mut [u8], value: u32)
        requires { self.at + self.size ≤ length part.old }
        ensures { part.new ≡ put part.old (number self value) }
    {
        put_digits(&mut part[self.at..self.at + self.size], u64::from(value));
    }

    // Puts the field's text.
    pub fn put_text(self, part: &mut [u8], text: &[u8])
        requires { self.at + length text.now ≤ length part.old }
        ensures { part.new ≡ put part.old (text_entry self text.now) }
    {
        copy(text, 0, text.len(), part, self.at)
    }
}
