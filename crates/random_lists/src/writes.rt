// One random call that writes, skips, counts or finishes, beside the plain frame's.
ghost use Rattle.std.specs.Prelude.{◌+◌, ◌≤◌, length};

use crate::frame::Frame;
use crate::lists::Run;
use crate::picture::Picture;
use crate::questions::Write;
use crate::random::Random;
use calls::Extent;
use refusals::Refusal;

// Each byte of a scratch before a call.
const BEFORE: u8 = 0xAA;

// A block row or column, now and then outside.
fn some_block(random: &mut Random, blocks: usize) -> usize
    requires { blocks ≤ 12 }
    ensures { result ≤ 13 }
{
    if random.seldom(15) {
        blocks + random.below(2)
    } else {
        random.below(blocks)
    }
}

fn some_write(random: &mut Random, p: Picture) -> Write {
    let row = some_block(random, p.down());
    let column = some_block(random, p.across());
    let actual = p.shape(row, column);
    let shape = Extent {
        bands: random.or_more(actual.bands),
        rows: random.or_more(actual.rows),
        columns: random.or_more(actual.columns),
    };
    Write { row, column, shape }
}

// Clears the bits above the picture's width.
fn fit(p: Picture, data: &mut [u8]) {
    let used = p.nbpp % 8;
    if used == 0 {
        return;
    }
    for sample in data.chunks_mut(p.size()) {
        if let [first, ..] = sample {
            *first &= 0xFF >> (8 - used);
        }
    }
}

// Sets, now and then, a bit above the picture's width in one of the samples.
fn seldom_unfit(random: &mut Random, p: Picture, data: &mut [u8])
    requires { length «data».old ≤ 1280 }
{
    let used = p.nbpp % 8;
    if used == 0 || !random.seldom(12) {
        return;
    }
    let k = random.below(data.len() / p.size());
    let bit = used + random.below(8 - used);
    if let Some(first) = data.get_mut(k * p.size()) {
        *first |= 1 << bit;
    }
}

// How many bytes of a scratch are not as a re-lay leaves them: zeros in the first `cleared`, others as they were.
fn wrong_bytes(scratch: &[u8], cleared: usize) -> usize {
    scratch
        .iter()
        .enumerate()
        .filter(|&(i, &byte)| byte != if i < cleared { 0 } else { BEFORE })
        .count()
}

impl Run {
    // Is the start accepted?
    pub fn start(&mut self, frame: &mut Frame<'_>) -> bool {
        let plain = self.plain.start(frame);
        let grid = self.plain.picture.grid();
        let a = writing::start(frame.image, frame.marks, grid, frame.widths);
        self.counts.compare(a, plain);
        self.counts.starts.add(plain);
        plain.is_ok()
    }

    fn write_data(&mut self, frame: &mut Frame<'_>, w: Write, data: &[u8]) {
        let plain = self.plain.write(frame, w, data);
        let grid = self.plain.picture.grid();
        let a = writing::encode_block(
            frame.image,
            frame.marks,
            grid,
            frame.widths,
            w.row as u32,
            w.column as u32,
            w.shape,
            data,
        );
        self.counts.compare(a, plain);
        self.counts.writes.add(plain);
        if plain == Err(Refusal::SampleBits) {
            self.counts.unfit = self.counts.unfit.saturating_add(1);
        }
    }

    // A write of random samples, now and then of another shape or length, or with a sample that does not fit.
    pub fn write(&mut self, frame: &mut Frame<'_>) {
        let p = self.plain.picture;
        let mut data = [0u8; 1280];
        self.random.fill(&mut data);
        let w = some_write(&mut self.random, p);
        let length = self.random.or_more(w.samples() * p.size());
        let data = &mut data[..length];
        fit(p, data);
        seldom_unfit(&mut self.random, p, data);
        self.write_data(frame, w, data);
    }

    pub fn skip(&mut self, frame: &mut Frame<'_>) {
        let p = self.plain.picture;
        let row = some_block(&mut self.random, p.down());
        let column = some_block(&mut self.random, p.across());
        let plain = self.plain.skip(frame, row, column);
        let image = &mut *frame.image;
        let marks = &mut *frame.marks;
        let a = writing::skip_block(
            image,
            marks,
            p.grid(),
            frame.widths,
            row as u32,
            column as u32,
        );
        self.counts.compare(a, plain);
        self.counts.skips.add(plain);
    }

    pub fn progress(&mut self, frame: &Frame<'_>) {
        let plain = self.plain.progress(frame);
        let grid = self.plain.picture.grid();
        let a = writing::progress(frame.marks, grid, frame.widths);
        self.counts.compare(a, plain);
        self.counts.progresses.add(plain);
    }

    pub fn finish(&mut self, frame: &Frame<'_>) {
        let plain = self.plain.finish(frame);
        let grid = self.plain.picture.grid();
        let a = writing::finalize(frame.image, frame.marks, grid, frame.widths);
        self.counts.compare(a, plain);
        self.counts.finishes.add(plain);
    }

    // A re-lay with a scratch that now and then is too short.
    pub fn relay(&mut self, frame: &mut Frame<'_>) {
        let p = self.plain.picture;
        let needed = p.block_bytes();
        let room = needed + self.random.below(3);
        let room = self.random.size_or_less(room);
        let mut scratch = [BEFORE; 640];
        let scratch = &mut scratch[..room];
        let plain = self.plain.relay(frame, room);
        let image = &mut *frame.image;
        let marks = &mut *frame.marks;
        let a = writing::relay(image, marks, p.grid(), frame.widths, scratch);
        self.counts.compare(a, plain);
        self.counts.relays.add(plain);
        let cleared = if plain.is_ok() { needed } else { 0 };
        self.counts.differ(wrong_bytes(scratch, cleared));
    }
}
