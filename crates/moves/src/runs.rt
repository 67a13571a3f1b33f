// Rows of packed runs that hold several bands, cut where a run ends. A sample is its b, r and c, as in `layout`.
ghost use Rattle.std.specs.Prelude.{◌≡◌, ◌+◌, ◌*◌, ◌≤◌, ◌<◌, length};
ghost use Rattle.std.specs.Iterator.{at_most};
ghost use Rattle.layout.specs.Internal.Layout.{sample_bytes, block_end, Sample, Sound};
ghost use Rattle.moves.specs.Internal.Runs.{RowRun, RowIn, NextRun};
ghost use Rattle.moves.specs.Internal.Parts.{samples_read};
ghost use Rattle.moves.specs.Internal.Puts.{InRow};
ghost use Rattle.moves.specs.Internal.Stores.{Writable, data_index, SomePut};

use common::min;
use layout::BlockLayout;
use samples::read::read_samples;
use samples::row::Row;
use samples::write::write_samples;

// Samples of a row that stand evenly: the first bit of the first, and how many they are.
#[derive(Clone, Copy)]
pub struct Run {
    pub at: usize,
    pub count: usize,
}

// `count` samples of a row of a block, from sample (b, r, c) on, run by run.
#[derive(Clone, Copy)]
pub struct RowRuns {
    pub layout: BlockLayout,
    pub b: usize,
    pub r: usize,
    pub c: usize,
    pub count: usize,
}

// The samples of a row from sample (b, r, c) on that are in its run, and at most so many.
fn run_from(layout: BlockLayout, b: usize, r: usize, c: usize, most: usize) -> Run
    requires sound { Sound layout }
    requires sample { Sample layout b r c }
    requires in_row { (0 < most) × (c + most ≤ layout.columns) }
    ensures { RowRun layout b r c most result }
{
    let at = layout.sample_place(b, r, c);
    Run {
        at,
        count: min(most, layout.rest_of_run(b, r, c)),
    }
}

impl Iterator for RowRuns {
    type Item = Run;

    ghost can_next = { RowIn };

    ghost next_gives = { NextRun };

    ghost remaining = { λ s. at_most s.count };

    fn next(&mut self) -> Option<Run> {
        if self.count == 0 {
            return None;
        }
        let run = run_from(self.layout, self.b, self.r, self.c, self.count);
        self.c += run.count;
        self.count -= run.count;
        Some(run)
    }
}

// The samples of a row go to index `to` of `out` on.
pub fn read_row(src: &[u8], row: RowRuns, out: &mut [u8], to: usize)
    requires inside { RowIn row }
    requires reached { block_end row.layout ≤ length src.now }
    requires out_holds { to + row.count * sample_bytes row.layout ≤ length out.old }
    ensures { out.new ≡ samples_read row.layout src.now row.b row.r row.c row.count to out.old }
{
    let width = row.layout.nbpp as usize;
    let size = row.layout.sample_bytes();
    let step = row.layout.strides().column;
    let mut at = to;
    for run in row {
        let part = Row {
            at: run.at,
            step,
            width,
            size,
            count: run.count,
            data_at: at,
        };
        read_samples(src, part, out);
        at += run.count * size;
    }
}

// The samples of a row are put at their places. They stand at index `from` of `dat` on.
pub fn put_row(image: &mut [u8], row: RowRuns, dat: &[u8], from: usize)
    requires inside { RowIn row }
    requires writable { Writable row.layout dat.now image.old }
    requires from_is { from ≡ data_index row.layout row.b row.r row.c }
    ensures { SomePut row.layout dat.now (InRow row.b row.r row.c row.count) image.old image.new }
{
    let width = row.layout.nbpp as usize;
    let size = row.layout.sample_bytes();
    let step = row.layout.strides().column;
    let mut at = from;
    for run in row {
        let part = Row {
            at: run.at,
            step,
            width,
            size,
            count: run.count,
            data_at: at,
        };
        write_samples(dat, part, image);
        at += run.count * size;
    }
}
