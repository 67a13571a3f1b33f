// One random list of calls after a start.
use crate::counts::Counts;
use crate::frame::Frame;
use crate::picture::Picture;
use crate::plain::Plain;
use crate::random::Random;
use crate::tables::some_table;

// The lists that have run, and the plain frame of the one that runs.
#[derive(Drop)]
pub struct Run {
    pub random: Random,
    pub plain: Plain,
    pub counts: Counts,
}

impl Run {
    pub fn new(seed: u64) -> Self {
        let mut random = Random { seed };
        Run {
            random,
            plain: Plain::new(Picture::some(&mut random, 0)),
            counts: Counts::default(),
        }
    }

    // One call on what is lent.
    fn call(&mut self, frame: &mut Frame<'_>) {
        match self.random.below(63) {
            0..20 => self.write(frame),
            20..30 => self.skip(frame),
            30..40 => self.progress(frame),
            40..50 => self.finish(frame),
            50..60 => self.window(frame),
            60..62 => self.relay(frame),
            _ => {
                self.start(frame);
            }
        }
    }

    // One call on all of the image and the marks, or now and then only on their first parts.
    fn lend_and_call(&mut self, image: &mut [u8], marks: &mut [u64]) {
        let n = self.random.size_or_less(image.len());
        let m = self.random.size_or_less(marks.len());
        let widths = some_table(&mut self.random, self.plain.picture);
        self.call(&mut Frame {
            image: &mut image[..n],
            marks: &mut marks[..m],
            widths: &widths,
        });
    }

    // A start, and sixty calls after it if it is accepted.
    fn start_and_call(&mut self, image: &mut [u8], marks: &mut [u64]) {
        let widths = some_table(&mut self.random, self.plain.picture);
        let accepted = self.start(&mut Frame {
            image: &mut *image,
            marks: &mut *marks,
            widths: &widths,
        });
        if !accepted {
            return;
        }
        for _ in 0..60 {
            self.lend_and_call(image, marks);
        }
    }

    // A list on dirty buffers, which now and then are too short for the start.
    pub fn list(&mut self, list: usize) {
        let p = Picture::some(&mut self.random, list);
        self.plain = Plain::new(p);
        let mut image = [0u8; 8192];
        self.random.fill(&mut image);
        let mut marks = [u64::MAX; 4];
        let room = p.image_bytes() + self.random.below(3);
        let n = self.random.size_or_less(room.min(image.len()));
        let m = self.random.size_or_less(marks.len());
        self.start_and_call(&mut image[..n], &mut marks[..m]);
    }
}
