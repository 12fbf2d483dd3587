// The five conversions, each over the run record and of plain parameters.
use reference::{Converter, Run};
use std::alloc::{AllocError, Global};
use test_support::{Converted, Told, answered, clips_are};

#[derive(Clone, Copy, PartialEq, Eq)]
pub enum Call {
    Run,
    Frame,
    Rack,
    Desk,
    File,
}

#[derive(Clone, Copy, PartialEq, Eq)]
pub enum Form {
    Record,
    Parts,
}

pub type Way = (Call, Form);

pub const WAYS: [Way; 10] = [
    (Call::Run, Form::Record),
    (Call::Run, Form::Parts),
    (Call::Rack, Form::Record),
    (Call::Rack, Form::Parts),
    (Call::Desk, Form::Record),
    (Call::Desk, Form::Parts),
    (Call::Frame, Form::Record),
    (Call::Frame, Form::Parts),
    (Call::File, Form::Record),
    (Call::File, Form::Parts),
];

// Lengths of the lists that are lent: samples, bytes, and counts if any.
#[derive(Clone, Copy)]
pub struct Room {
    pub samples: usize,
    pub bytes: usize,
    pub counts: Option<usize>,
}

// What a call answers, and what it leaves of lists of 7's.
#[derive(Drop)]
pub struct Made {
    pub done: Converted,
    pub samples: Vec<i32>,
    pub bytes: Vec<u8>,
    pub counts: Vec<u64>,
}

fn are<T: Copy + PartialEq>(s: &[T], x: T) -> bool {
    s.iter().all(|y| *y == x)
}

impl Made {
    pub fn is_kept(&self) -> bool {
        are(&self.samples, 7) && are(&self.bytes, 7) && are(&self.counts, 7)
    }

    pub fn told(&self) -> Told {
        answered(self.done)
    }

    // Whether it is refused so; then nothing is written or counted.
    pub fn is_refused(&self, told: Told) -> bool {
        self.told() == told && clips_are(self.done, 0) && self.is_kept()
    }
}

fn by_record(
    call: Call,
    conv: Converter,
    run: Run,
    samples: &mut [i32],
    bytes: &mut [u8],
    counts: Option<&mut [u64]>,
) -> Converted {
    match call {
        Call::Run => scarletbook_pcm::convert_run(conv, run, samples),
        Call::Frame => scarletbook_pcm::convert_frame(conv, run, samples),
        Call::Rack => scarletbook_pcm::convert(conv, run, bytes, counts),
        Call::Desk => scarletbook_pcm::convert_desk(conv, run, bytes, counts),
        Call::File => wav::convert(conv, run, bytes, counts),
    }
}

fn by_parts(
    call: Call,
    conv: Converter,
    run: Run,
    samples: &mut [i32],
    bytes: &mut [u8],
    counts: Option<&mut [u64]>,
) -> Converted {
    let (p, before) = (run.has_before, run.before);
    let frames = run.frames;
    let (q, after) = (run.has_after, run.after);
    match call {
        Call::Run => {
            scarletbook_pcm::convert_run_parts(conv, p, before, frames, q, after, samples)
        }
        Call::Frame => {
            scarletbook_pcm::convert_frame_parts(conv, p, before, frames, q, after, samples)
        }
        Call::Rack => {
            scarletbook_pcm::convert_parts(conv, p, before, frames, q, after, bytes, counts)
        }
        Call::Desk => {
            scarletbook_pcm::convert_desk_parts(conv, p, before, frames, q, after, bytes, counts)
        }
        Call::File => wav::convert_parts(conv, p, before, frames, q, after, bytes, counts),
    }
}

pub fn called(
    alloc: Global,
    (call, form): Way,
    conv: Converter,
    run: Run,
    room: Room,
) -> Result<Made, AllocError> {
    let mut samples = vec![in alloc; 7i32; room.samples]?;
    let mut bytes = vec![in alloc; 7u8; room.bytes]?;
    let mut counts = vec![in alloc; 7u64; room.counts.unwrap_or(0)]?;
    let lent = room.counts.is_some().then_some(counts.as_mut_slice());
    let done = match form {
        Form::Record => by_record(call, conv, run, &mut samples, &mut bytes, lent),
        Form::Parts => by_parts(call, conv, run, &mut samples, &mut bytes, lent),
    };
    Ok(Made {
        done,
        samples,
        bytes,
        counts,
    })
}
