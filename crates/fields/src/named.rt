// Named values, as they stand in their fields.
ghost use Rattle.std.specs.Prelude.{◌≡◌, ℕ, ◌<◌, ◌^◌, List, is_some, unwrap_or};
ghost use Rattle.std.proofs.Common.{rules};
ghost use Rattle.fields.specs.Named.{is_named, value_of};
ghost use Rattle.fields.specs.Named.{pvtypes, pvtype_text, pjusts, pjust_text, ics, ic_text, imodes, imode_text};

use layout::InterleaveMode;

// A type whose values are written as texts of N bytes: the text of each, and the values.
pub trait Named<const N: usize>: Copy + 'static {
    ghost text: { Self → List ℕ };

    ghost values: { List Self };

    // How it is written.
    fn to_bytes(self) -> [u8; N]
        ensures { result ≡ text self };

    // All values.
    fn values() -> &'static [Self]
        ensures { result.now ≡ values };

    // Generic code asks this of an array.
    ghost short: { N < 2 ^ 63 };

    // The value that is written so, if there is one.
    final fn named(bytes: &[u8]) -> Option<Self>
        ensures is_there { is_some result ≡ is_named text values bytes.now }
        ensures value { (other : Self) → unwrap_or result other ≡ value_of text values other bytes.now }
    {
        for value in Self::values() {
            if bytes == value.to_bytes().as_slice() {
                return Some(*value);
            }
        }
        None
    }

    // The value that is written so; `other` where none is.
    final fn from_bytes(bytes: &[u8], other: Self) -> Self
        ensures { result ≡ value_of text values other bytes.now }
    {
        Self::named(bytes).unwrap_or(other)
    }

    // Is a value written so?
    final fn is_named(bytes: &[u8]) -> bool
        ensures { result ≡ is_named text values bytes.now }
    {
        Self::named(bytes).is_some()
    }
}

// PVTYPE: what a sample's bits are.
#[derive(Clone, Copy, Debug, PartialEq, Eq)]
pub enum PixelValueType {
    UnsignedInt,
    SignedInt,
    Real,
    Complex,
    BiLevel,
}

impl Named<3> for PixelValueType {
    ghost text = { pvtype_text };

    ghost values = { pvtypes };

    ghost short = { Prim.search rules };

    fn to_bytes(self) -> [u8; 3] {
        match self {
            Self::UnsignedInt => *b"INT",
            Self::SignedInt => *b"SI ",
            Self::Real => *b"R  ",
            Self::Complex => *b"C  ",
            Self::BiLevel => *b"B  ",
        }
    }

    fn values() -> &'static [Self] {
        &[
            Self::UnsignedInt,
            Self::SignedInt,
            Self::Real,
            Self::Complex,
            Self::BiLevel,
        ]
    }
}

// PJUST: at which end of a sample its ABPP bits stand.
#[derive(Clone, Copy, Debug, PartialEq, Eq)]
pub enum PixelJustification {
    Right,
    Left,
}

impl Named<1> for PixelJustification {
    ghost text = { pjust_text };

    ghost values = { pjusts };

    ghost short = { Prim.search rules };

    fn to_bytes(self) -> [u8; 1] {
        match self {
            Self::Right => *b"R",
            Self::Left => *b"L",
        }
    }

    fn values() -> &'static [Self] {
        &[Self::Right, Self::Left]
    }
}

// IC: without compression, as a whole or masked.
#[derive(Clone, Copy, Debug, PartialEq, Eq)]
pub enum ImageCompression {
    NC,
    NM,
}

impl Named<2> for ImageCompression {
    ghost text = { ic_text };

    ghost values = { ics };

    ghost short = { Prim.search rules };

    fn to_bytes(self) -> [u8; 2] {
        match self {
            Self::NC => *b"NC",
            Self::NM => *b"NM",
        }
    }

    fn values() -> &'static [Self] {
        &[Self::NC, Self::NM]
    }
}

impl Named<1> for InterleaveMode {
    ghost text = { imode_text };

    ghost values = { imodes };

    ghost short = { Prim.search rules };

    fn to_bytes(self) -> [u8; 1] {
        match self {
            Self::B => *b"B",
            Self::P => *b"P",
            Self::R => *b"R",
            Self::S => *b"S",
        }
    }

    fn values() -> &'static [Self] {
        &[Self::B, Self::P, Self::R, Self::S]
    }
}
