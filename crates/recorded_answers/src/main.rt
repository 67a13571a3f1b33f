// Replays recorded answers of the original Rust over the library, and prints how many were equal. Its standard input
// is what `recorded write` in differential/ makes with seed 1; differential/recorded/FORMAT.md describes it.
#![tactic(auto)]

mod answers;
mod counts;
mod frames;
mod grids;
mod kinds;
mod masks;
mod reads;
mod records;
mod reorderings;
mod replay;
mod words;

use std::io;
use std::io::Read;

// The longest file, and one byte more by which a longer file is known.
const ROOM: usize = 600_001;

// A read that fails ends the file, and a line that can't be written is left out.
fn main(rt: HostRuntime) -> io::Result<()> {
    let mut data = Vec::with_capacity(rt.alloc(), ROOM)?;
    let _read = rt.reader().take(ROOM as u64).read_to_end(&mut data);
    let _written = replay::replay_file(&rt, data.as_slice());
    Ok(())
}
