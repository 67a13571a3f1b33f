// One random window beside the plain frame's.
ghost use Rattle.std.specs.Prelude.{◌+◌, ◌≤◌};

use crate::ends::Window;
use crate::frame::Frame;
use crate::lists::Run;
use crate::picture::Picture;
use crate::random::Random;
use calls::Extent;
use refusals::Refusal;
use widths::Widths;
use windows::Rectangle;

// Each byte of an output before a call.
const BEFORE: u8 = 0xAA;

// How many bytes of the output from `at` on were altered.
fn altered_bytes(out: &[u8], at: usize) -> usize {
    out.iter().skip(at).filter(|&&byte| byte != BEFORE).count()
}

// A length of 1 to `most`, now and then another of 0 to 12.
fn some_length(random: &mut Random, most: usize) -> usize
    requires { most ≤ 12 }
    ensures { result ≤ 13 }
{
    if random.seldom(15) {
        random.below(13)
    } else {
        random.below(most) + 1
    }
}

fn some_window<'a>(random: &mut Random, p: Picture, listed: &'a [u32]) -> Window<'a> {
    let row = random.below(p.nrows);
    let column = random.below(p.ncols);
    Window {
        row,
        column,
        rows: some_length(random, p.nrows - row),
        columns: some_length(random, p.ncols - column),
        bands: if random.seldom(4) { None } else { Some(listed) },
    }
}

// A band, now and then one too high.
fn some_band(random: &mut Random, p: Picture) -> u32 {
    if random.seldom(30) {
        p.bands as u32
    } else {
        random.below(p.bands) as u32
    }
}

// The bytes to lend for an output of so many: now and then just as many, or one too few.
fn some_room(random: &mut Random, bytes: usize) -> usize {
    match random.below(12) {
        0 => bytes,
        1 => bytes.saturating_sub(1),
        _ => 4096,
    }
}

// The bytes to lend of an image of so many: now and then just as many as the window needs, or one too few.
fn some_part(random: &mut Random, end: usize, size: usize) -> usize
    ensures { result ≤ size }
{
    match random.below(8) {
        missing @ 0..2 => end.saturating_sub(missing).min(size),
        _ => size,
    }
}

impl Run {
    // The samples that are not the plain frame's, and the altered bytes after them; a refused window alters nothing.
    fn wrong_output(&self, w: Window<'_>, plain: Result<Extent, Refusal>, out: &[u8]) -> usize {
        match plain {
            Ok(_) => {
                let wrong = self.plain.wrong_samples(w, out);
                let filled = w.bytes(self.plain.picture);
                wrong.saturating_add(altered_bytes(out, filled))
            }
            Err(_) => altered_bytes(out, 0),
        }
    }

    // A window into an output that holds BEFORE bytes.
    fn read_window(&mut self, w: Window<'_>, image: &[u8], widths: &Widths, out: &mut [u8]) {
        let p = self.plain.picture;
        let plain = self.plain.window(image.len(), widths, w, out.len());
        let area = Rectangle {
            row: w.row as u32,
            column: w.column as u32,
            rows: w.rows as u32,
            columns: w.columns as u32,
        };
        let a = windows::read_window(image, p.grid(), widths, area, w.bands, out);
        self.counts.compare(a, plain);
        let wrong = self.wrong_output(w, plain, out);
        self.counts.differ(wrong);
        if image.len() < p.image_bytes() {
            self.counts.parts.add(plain);
        } else {
            self.counts.windows.add(plain);
        }
    }

    // A window of all bands or of up to three listed bands, now and then outside the picture, with a band too high, or
    // with an output or an image too short.
    pub fn window(&mut self, frame: &Frame<'_>) {
        let p = self.plain.picture;
        let random = &mut self.random;
        let bands = [
            some_band(random, p),
            some_band(random, p),
            some_band(random, p),
        ];
        let listed = random.below(4);
        let w = some_window(random, p, &bands[..listed]);
        let room = some_room(random, w.bytes(p));
        let part = some_part(random, w.end(p), frame.image.len());
        let mut out = [BEFORE; 4096];
        if let Some(out) = out.get_mut(..room) {
            self.read_window(w, &frame.image[..part], frame.widths, out);
        }
    }
}
