// The width table: bytes of a sample by NBPP. A site may load one in which widths are barred.
#![tactic(auto)]

ghost use Rattle.std.specs.Prelude.{◌≡◌, get_or};
ghost use Rattle.widths.specs.Widths.{width_bytes, standard, takes, table_of};
ghost use Rattle.widths.specs.Loading.{header_fits, is_entry, entries_fit, loaded_of, load};

use bits::bytes::get_be;
use refusals::Refusal;

// The constant table: bytes of a sample of NBPP 0 to 64; zero where the width is refused.
const ENTRIES: [u8; 65] = [
    0, 1, 1, 1, 1, 1, 1, 1, 1, 2, 2, 2, 2, 2, 2, 2, 2, 0, 0, 0, 0, 0, 0, 0, 3, 4, 4, 4, 4, 4, 4, 4,
    4, 0, 0, 0, 0, 0, 0, 0, 5, 0, 0, 0, 0, 0, 0, 0, 6, 0, 0, 0, 0, 0, 0, 0, 7, 0, 0, 0, 0, 0, 0, 0,
    8,
];

// A constant is built anew wherever it is used, and this one is not.
static STANDARD_ENTRIES: [u8; 65] = ENTRIES;

// Bytes of a sample of `nbpp` bits by the constant table, zero where the width is refused.
pub fn width_bytes(nbpp: u32) -> u32
    ensures { result ≡ width_bytes nbpp }
{
    if nbpp < 65 {
        let i = nbpp as usize;
        STANDARD_ENTRIES[i] as u32
    } else {
        0
    }
}

// A table as it is handed to a call: an entry for each NBPP from 0 to 64.
#[derive(Clone, Copy)]
pub struct Widths {
    pub entries: [u8; 65],
}

// Is a byte the constant's value for NBPP, or 0?
#[tactic(auto, unfolding(crate::specs::Loading::is_entry, common::specs::Tests::some))]
fn is_entry(nbpp: u32, entry: u8) -> bool
    ensures { result ≡ is_entry nbpp entry }
{
    entry == 0 || entry as u32 == width_bytes(nbpp)
}

// Are there 68 bytes, and before the entries the length 66 and version 1?
#[tactic(auto, unfolding(crate::specs::Loading::header_fits, common::specs::Tests::every))]
fn has_header(bytes: &[u8]) -> bool
    ensures { result ≡ header_fits bytes.now }
{
    bytes.len() == 68 && get_be(bytes, 0, 2) == 66 && bytes[2] == 1
}

// An entry; 0 where it is not there.
fn entry_in(entries: &[u8], n: usize) -> u8
    ensures { result ≡ get_or entries.now n 0 }
{
    entries.get(n).copied().unwrap_or(0)
}

impl Widths {
    // The constant table.
    pub const STANDARD: Self = Self { entries: ENTRIES };

    pub fn standard() -> Self
        ensures { result ≡ standard }
    {
        Self::STANDARD
    }

    // The table of entries for NBPP 0, 1, and so on; one that is not there is 0, and more than 65 are not looked at.
    pub fn new(entries: &[u8]) -> Self
        ensures { result ≡ table_of entries.now }
    {
        // A copy whose length the compiler knows: it is a few moves.
        if entries.len() >= 65 {
            return Self {
                entries: entries[..65].try_into().unwrap(),
            };
        }
        // Of another length it would be a call of the C library's `memcpy`.
        let mut table = [0; 65];
        for n in 0..65 {
            table[n] = entry_in(entries, n);
        }
        Self { entries: table }
    }

    // Question 2: is the entry for NBPP the constant's value, and not 0?
    #[tactic(auto, unfolding(crate::specs::Widths::takes, common::specs::Tests::every))]
    pub fn takes(&self, nbpp: u32) -> bool
        ensures { result ≡ takes self.now nbpp }
    {
        if nbpp > 64 {
            return false;
        }
        let entry = self.entries[nbpp as usize];
        entry != 0 && entry as u32 == width_bytes(nbpp)
    }

    // Is each entry the constant's value, or 0?
    fn is_loadable(&self) -> bool
        ensures { result ≡ entries_fit self.now }
    {
        for nbpp in 0..65 {
            if !is_entry(nbpp as u32, self.entries[nbpp]) {
                return false;
            }
        }
        true
    }

    // Loads a table from its 68 bytes: the length 66, version 1, the entries.
    pub fn load(bytes: &[u8]) -> Result<Self, Refusal>
        ensures { loaded_of result ≡ load bytes.now }
    {
        if !has_header(bytes) {
            return Err(Refusal::WidthTable);
        }
        let widths = Self::new(&bytes[3..]);
        if !widths.is_loadable() {
            return Err(Refusal::WidthTable);
        }
        Ok(widths)
    }
}
