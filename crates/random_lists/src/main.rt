// Runs long random lists of calls against a plain frame of its own, and prints how many calls were accepted and
// refused.
// A call that answers otherwise than the plain frame is counted as a difference.
#![tactic(auto)]

mod counts;
mod ends;
mod frame;
mod lists;
mod picture;
mod plain;
mod questions;
mod random;
mod reads;
mod tables;
mod writes;

use crate::lists::Run;

// Six lists for each width in each mode under each edge rule.
const LISTS: usize = 1_392;

// A failed write is no error, and tells nobody: the output is compared.
fn main(rt: HostRuntime) {
    let mut run = Run::new(88_172_645_463_325_252);
    for list in 0..LISTS {
        run.list(list);
    }
    let _ = println!(rt; "{}", run.counts);
}
