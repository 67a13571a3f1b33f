// The replay of a file, record by record.
use crate::answers::BEFORE;
use crate::counts::Counts;
use crate::frames::Frame;
use crate::kinds::Kind;
use crate::records::{Fault, Record};
use crate::words::{Words, padded};
use crate::{masks, reads, reorderings};
use std::io;

// Bytes of a record whose lists are empty.
const LEAST_BYTES: usize = 64;

// Runs the call of a record. Is its answer the recorded one?
fn same(r: &Record<'_>, frame: &mut Frame) -> Result<bool, Fault> {
    let mut out = [BEFORE; 1024];
    match r.kind {
        Kind::BlockRead => reads::block_read(r, &mut out),
        Kind::WholeBlock => reads::whole_block(r),
        Kind::Window => reads::window(r, &mut out),
        Kind::Start => Ok(frame.start(r)),
        Kind::Write => frame.write(r),
        Kind::Skip => frame.skip(r),
        Kind::Progress => Ok(frame.progress(r)),
        Kind::Finish => Ok(frame.finish(r)),
        Kind::Contents => Ok(frame.contents(r)),
        Kind::MaskParse => Ok(masks::parse(r)),
        Kind::MaskWrite => masks::write(r, &mut out),
        Kind::MaskLookup => masks::lookup(r),
        Kind::MaskFromMarks => Ok(masks::from_marks(r)),
        Kind::ToBandSequential | Kind::FromBandSequential | Kind::FromPixels => {
            reorderings::reordering(r, &mut out)
        }
    }
}

// The number of the next record's kind. Zeros stand for the bytes after the file.
fn next_kind(mut file: Words<'_>) -> u32 {
    let _length = file.word();
    u32::from_be_bytes(padded(file.left))
}

#[derive(Drop)]
struct Replay<'a> {
    file: Words<'a>,
    frame: Frame,
    counts: Counts,
}

impl Replay<'_> {
    // Replays the next record. Is its answer the recorded one?
    fn same(&mut self) -> Result<bool, Fault> {
        let r = Record::read(&mut self.file)?;
        let equal = same(&r, &mut self.frame)?;
        self.counts.add(r.kind, equal);
        Ok(equal)
    }

    // Replays record i. The first three that differ are named, and the first three that are damaged or missing.
    fn record(&mut self, rt: &impl Print, i: u32) -> io::Result<()> {
        let kind = next_kind(self.file);
        match self.same() {
            Ok(true) => Ok(()),
            Ok(false) if self.counts.differences() > 3 => Ok(()),
            Ok(false) => println!(rt; "record {i} of kind {kind}: {:<32}", "the answer differs"),
            Err(fault) => {
                self.counts.add_fault();
                if self.counts.faults() > 3 {
                    return Ok(());
                }
                println!(rt; "record {i} of kind {kind}: {fault:<32}")
            }
        }
    }

    // Bytes that no record has, where the records end before the file.
    fn rest(&mut self, rt: &impl Print) -> io::Result<()> {
        if self.file.left.is_empty() {
            return Ok(());
        }
        self.counts.add_fault();
        println!(rt; "bytes are left after the last record")
    }
}

// The count of records, and the records after it, if the file begins with REC1 and has room for them.
fn records_of(data: &[u8]) -> Option<(u32, Words<'_>)> {
    let mut file = Words { left: data };
    if file.bytes(4)? != b"REC1".as_slice() {
        return None;
    }
    let count = file.word()?;
    if count as usize * LEAST_BYTES > file.left.len() {
        return None;
    }
    Some((count, file))
}

// A line that can't be written is left out; the result is that of the last one.
pub fn replay_file(rt: &impl Print, data: &[u8]) -> io::Result<()> {
    let Some((count, file)) = records_of(data) else {
        return println!(rt; "no file of records, or too short for its records");
    };
    let mut replay = Replay {
        file,
        frame: Frame::new(),
        counts: Counts::default(),
    };
    for i in 0..count {
        let _written = replay.record(rt, i);
    }
    let _written = replay.rest(rt);
    println!(rt; "{}", replay.counts)
}
