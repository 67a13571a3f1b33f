// Tables of widths: which of them load, and what the check answers with loaded ones and with others.
ghost use Rattle.std.specs.Prelude.{◌<◌};

use crate::figure;
use grid::Grid;
use refusals::answer_number;
use std::fmt::Display;
use std::io;
use widths::Widths;

// The standard table as it is loaded: the length 66, version 1, and from place 3 on the entries for NBPP 0 to 64.
static STANDARD: [u8; 68] = [
    0, 66, 1, 0, 1, 1, 1, 1, 1, 1, 1, 1, 2, 2, 2, 2, 2, 2, 2, 2, 0, 0, 0, 0, 0, 0, 0, 3, 4, 4, 4,
    4, 4, 4, 4, 4, 0, 0, 0, 0, 0, 0, 0, 5, 0, 0, 0, 0, 0, 0, 0, 6, 0, 0, 0, 0, 0, 0, 0, 7, 0, 0, 0,
    0, 0, 0, 0, 8,
];

// The place of the entry for NBPP 12.
const TWELVE: usize = 15;

// The standard table's bytes with another one at a place.
fn with_byte(place: usize, value: u8) -> [u8; 68]
    requires { place < 68 }
{
    let mut bytes = STANDARD;
    bytes[place] = value;
    bytes
}

// Does the table with another byte at a place load?
fn loads_with(place: usize, value: u8) -> bool
    requires { place < 68 }
{
    Widths::load(&with_byte(place, value)).is_ok()
}

// The standard table with another entry, never loaded.
fn with_entry(nbpp: usize, entry: u8) -> Widths
    requires { nbpp < 65 }
{
    let mut entries = Widths::STANDARD.entries;
    entries[nbpp] = entry;
    Widths::new(&entries)
}

// What the check answers for the grid of the figures at another width.
fn answer_at(nbpp: u32, widths: &Widths) -> u32 {
    answer_number(&figure(nbpp).check(widths))
}

fn print_load(rt: &impl Print, label: &str, bytes: &[u8]) -> io::Result<()> {
    println!(rt; "load {label}: {}", answer_number(&Widths::load(bytes)))
}

fn print_at(rt: &impl Print, label: &str, nbpp: u32, widths: &Widths) -> io::Result<()> {
    println!(rt; "{label}, NBPP {nbpp}: {}", answer_at(nbpp, widths))
}

// What stands before the entries, and how many bytes there are.
fn headers(rt: &impl Print) -> io::Result<()> {
    let mut longer = [0; 69];
    longer[..68].copy_from_slice(&STANDARD);
    print_load(rt, "68 bytes", &STANDARD)?;
    print_load(rt, "67 bytes", &longer[..67])?;
    print_load(rt, "69 bytes", &longer)?;
    print_load(rt, "length 65", &with_byte(1, 65))?;
    print_load(rt, "length 68", &with_byte(1, 68))?;
    print_load(rt, "length 322", &with_byte(0, 1))?;
    print_load(rt, "version 0", &with_byte(2, 0))?;
    print_load(rt, "version 2", &with_byte(2, 2))
}

// Each entry at another value: one more than its own, which no table may hold, or 0, which bars the width.
fn entries(rt: &impl Print) -> io::Result<()> {
    let refused = (3..68)
        .filter(|&place| !loads_with(place, STANDARD[place].wrapping_add(1)))
        .count();
    let loaded = (3..68).filter(|&place| loads_with(place, 0)).count();
    println!(rt; "load one entry wrong: {refused} of 65 refused")?;
    println!(rt; "load one entry 0: {loaded} of 65 loaded")
}

// A loaded table of zeros.
fn all_barred(rt: &impl Print) -> io::Result<()> {
    let mut bytes = [0; 68];
    bytes[..3].copy_from_slice(&STANDARD[..3]);
    let Ok(zeros) = Widths::load(&bytes) else {
        return println!(rt; "the table of zeros is refused");
    };
    let taken = (0..67).filter(|&nbpp| answer_at(nbpp, &zeros) == 0).count();
    println!(rt; "all barred: {taken} of 67 widths taken")
}

// A loaded table that bars 12 only, and grids to which question 1 or 3 says no.
fn one_barred(rt: &impl Print) -> io::Result<()> {
    let Ok(barred) = Widths::load(&with_byte(TWELVE, 0)) else {
        return println!(rt; "the table that bars 12 is refused");
    };
    let standard = Widths::STANDARD;
    let others = (0..67)
        .filter(|&nbpp| answer_at(nbpp, &barred) != answer_at(nbpp, &standard))
        .count();
    println!(rt; "12 barred: {others} of 67 widths answered otherwise")?;
    print_at(rt, "12 barred", 12, &barred)?;
    let no_bands = Grid {
        bands: 0,
        ..figure(12)
    };
    let no_blocks = Grid {
        nbpr: 0,
        ..figure(12)
    };
    println!(rt;
        "12 barred, bands 0: {}",
        answer_number(&no_bands.check(&barred))
    )?;
    println!(rt;
        "12 barred, NBPR 0: {}",
        answer_number(&no_blocks.check(&barred))
    )
}

// Tables that were never loaded: wrong entries, and fewer than 65.
fn never_loaded(rt: &impl Print) -> io::Result<()> {
    let wrong = with_entry(12, 3);
    print_at(rt, "entry 3 for 12", 11, &wrong)?;
    print_at(rt, "entry 3 for 12", 12, &wrong)?;
    print_at(rt, "entry 3 for 12", 13, &wrong)?;
    print_at(rt, "entry 3 for 17", 17, &with_entry(17, 3))?;
    let first = Widths::new(&Widths::STANDARD.entries[..12]);
    print_at(rt, "12 entries", 11, &first)?;
    print_at(rt, "12 entries", 12, &first)?;
    print_at(rt, "no entries", 8, &Widths::new(&[]))
}

pub fn print_tables(rt: &impl Print) -> io::Result<()> {
    headers(rt)?;
    entries(rt)?;
    all_barred(rt)?;
    one_barred(rt)?;
    never_loaded(rt)
}
