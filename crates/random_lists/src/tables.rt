// The table of widths that a call is handed.
use crate::picture::Picture;
use crate::random::Random;
use widths::Widths;

// The standard table with another entry for the picture's width.
fn with_entry(p: Picture, entry: u8) -> Widths {
    let mut widths = Widths::STANDARD;
    widths.entries[p.nbpp] = entry;
    widths
}

// An entry of 1 to 9 that is not the width's.
fn wrong_entry(random: &mut Random, p: Picture) -> u8 {
    let entry = random.below(8) as u8 + 1;
    if (entry as usize) < p.size() {
        entry
    } else {
        entry + 1
    }
}

// A table that takes the picture's width and no other.
fn only(p: Picture) -> Widths {
    let mut entries = [0; 65];
    entries[p.nbpp] = p.size() as u8;
    Widths { entries }
}

// Mostly the standard table, now and then one that bars the picture's width, or all others.
pub fn some_table(random: &mut Random, p: Picture) -> Widths {
    match random.below(40) {
        0 => with_entry(p, 0),
        1 => with_entry(p, wrong_entry(random, p)),
        2 => only(p),
        _ => Widths::STANDARD,
    }
}
