// The samples of a block, taken from where one layout has them to where another has them.
ghost use Rattle.std.specs.Prelude.{◌≡◌, ◌+◌, ◌-◌, ◌*◌, ◌≤◌, ◌<◌, length, drop};
ghost use Rattle.layout.specs.Internal.Layout.{run_size, Sound, block_end};
ghost use Rattle.moves.specs.Internal.Stores.{put_all, clear_runs};
ghost use Rattle.moves.specs.Internal.Relays.{save_runs, bits_of, Relayable, RunAt, Line, InWholeLine, InLines, Relaid};
ghost use Rattle.moves.specs.Internal.Relays.{line_size, lines_of, BlockRelayable};

use crate::runs::Run;
use crate::store::clear_runs;
use bits::bytes::copy;
use common::min;
use layout::{BlockLayout, InterleaveMode};
use samples::copy::copy_bits;

// The bytes of each run go to `scratch`, one run after another.
pub fn save_runs(image: &[u8], layout: BlockLayout, scratch: &mut [u8])
    requires sound { Sound layout }
    requires image_holds { layout.first + (layout.bands - 1) * layout.apart + layout.run_bytes ≤ length image.now }
    requires scratch_holds { layout.bands * layout.run_bytes ≤ length scratch.old }
    ensures { scratch.new ≡ save_runs layout image.now scratch.old }
{
    let t = layout.run_bytes;
    // by number, the one that both places are said by
    for k in 0..layout.bands as usize {
        copy(image, layout.first + k * layout.apart, t, scratch, k * t);
    }
}

// How many lines a row has. The samples of a line follow each other in the order of every layout of the mode: in P a
// line is a row, else a row of a band.
fn lines_of(layout: BlockLayout) -> usize
    ensures { result ≡ lines_of layout.mode layout.bands }
{
    match layout.mode {
        InterleaveMode::P => 1,
        _ => layout.bands as usize,
    }
}

// How many samples a line has.
fn line_size(layout: BlockLayout) -> usize
    requires { Sound layout }
    ensures { result ≡ line_size layout.mode layout.bands layout.columns }
{
    match layout.mode {
        InterleaveMode::P => layout.columns * layout.bands as usize,
        _ => layout.columns,
    }
}

// The samples from place n of a layout's order on that are in the run of the first.
fn run_at(layout: BlockLayout, n: usize) -> Run
    requires sound { Sound layout }
    requires in_block { n < layout.bands * run_size layout }
    ensures { RunAt layout n result }
{
    let size = layout.run_rows * layout.run_columns;
    Run {
        at: layout.order_place(n),
        count: size - n % size,
    }
}

// Puts the samples of line b of row r, cut where a run of either layout ends.
fn put_line(
    scratch: &[u8],
    from: BlockLayout,
    to: BlockLayout,
    b: usize,
    r: usize,
    image: &mut [u8],
)
    requires relayable { Relayable from to (length scratch.now) (length image.old) }
    requires line { Line to b r }
    ensures { Relaid from scratch.now to (InWholeLine to b r) image.old image.new }
{
    let width = to.nbpp as usize;
    let size = line_size(to);
    let source = from.sample_ordinal(b, r, 0);
    let target = to.sample_ordinal(b, r, 0);
    let mut done = 0;
    while done < size {
        let given = run_at(from, source + done);
        let taken = run_at(to, target + done);
        let n = min(size - done, min(given.count, taken.count));
        copy_bits(scratch, given.at, n * width, image, taken.at);
        done += n;
    }
}

// Puts the samples of line b of each row.
fn put_lines(scratch: &[u8], from: BlockLayout, to: BlockLayout, b: usize, image: &mut [u8])
    requires relayable { Relayable from to (length scratch.now) (length image.old) }
    requires line { b < lines_of to.mode to.bands }
    ensures { Relaid from scratch.now to (InLines to b) image.old image.new }
{
    for r in 0..to.rows {
        put_line(scratch, from, to, b, r, image);
    }
}

// Puts the samples of a block, which `scratch` has by another layout, at their places.
pub fn put_saved(scratch: &[u8], from: BlockLayout, to: BlockLayout, image: &mut [u8])
    requires { Relayable from to (length scratch.now) (length image.old) }
    ensures { image.new ≡ put_all to (bits_of from scratch.now) image.old }
{
    for b in 0..lines_of(to) {
        put_lines(scratch, from, to, b, image);
    }
}

// Moves the samples of a block from where one layout of the image has them to where another has them: its runs are
// saved and cleared, and its samples put.
pub fn relay_block(image: &mut [u8], from: BlockLayout, to: BlockLayout, scratch: &mut [u8])
    requires { BlockRelayable from to (length image.old) (length scratch.old) }
    ensures image_is { image.new ≡ put_all to (bits_of from image.old) (clear_runs from image.old) }
    ensures scratch_kept { drop (from.bands * from.run_bytes) scratch.new
        ≡ drop (from.bands * from.run_bytes) scratch.old }
{
    save_runs(image, from, scratch);
    clear_runs(image, from);
    let saved = BlockLayout {
        first: 0,
        apart: from.run_bytes,
        ..from
    };
    put_saved(scratch, saved, to, image);
}
