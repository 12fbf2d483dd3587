// Document 01's figures: Standard at 88,200 Hz, mono; the desk's entry beside the rack's; three samples packed.
use crate::calls::{Call, Form, Room};
use crate::input::Pattern;
use crate::{calls, input};
use reference::Run;
use std::alloc::Global;
use std::io;
use test_support::{clipped, clips_are, print_right};

// A frame of one byte throughout at so many decibels, between two like it, becomes one sample throughout, with so many
// clips.
const CONSTANTS: [(f64, u8, i32, u64); 4] = [
    (0.0, 0xff, 8388607, 1176),
    (-20.0, 0xff, 838861, 0),
    (-120.0, 0xff, 8, 0),
    (24.0, 0, -8388608, 1176),
];

fn constant_right(&(db, byte, sample, clips): &(f64, u8, i32, u64)) -> bool {
    let frame = [byte; 4704];
    let run = Run {
        has_before: true,
        before: &frame,
        frames: &frame,
        has_after: true,
        after: &frame,
    };
    let mut out = [0i32; 1176];
    let done = scarletbook_pcm::convert_run(input::converter(0, 1, db), run, &mut out);
    done.is_ok() && clips_are(done, clips) && out.iter().all(|x| *x == sample)
}

// Whether both entries accept so many loud frames at 6 dB, and give the same bytes, clips and counts: some clips, if
// there is a frame.
fn desk_as_rack(alloc: Global, frames: u8) -> io::Result<bool> {
    let n = usize::from(frames);
    let bytes = input::made(alloc, Pattern::Loud, 1, 4704 * n)?;
    let frame = [0u8; 4704];
    let run = Run {
        has_before: true,
        before: &frame,
        frames: &bytes,
        has_after: true,
        after: &frame,
    };
    let room = Room {
        samples: 0,
        bytes: 3528 * n,
        counts: Some(n),
    };
    let conv = input::converter(0, 1, 6.0);
    let desk = calls::called(alloc, (Call::Desk, Form::Record), conv, run, room)?;
    let rack = calls::called(alloc, (Call::Rack, Form::Record), conv, run, room)?;
    let clips = clipped(rack.done);
    Ok(
        desk.done.is_ok()
            && rack.done.is_ok()
            && clipped(desk.done) == clips
            && (clips[0] == 0) == (n == 0)
            && desk.bytes.as_slice() == rack.bytes.as_slice()
            && desk.counts.as_slice() == rack.counts.as_slice(),
    )
}

// Three samples into seven bytes: two are packed, and the last byte is kept.
const PACKED: [([i32; 3], [u8; 7]); 2] = [
    ([8388607, -2, 3], [0xff, 0xff, 0x7f, 0xfe, 0xff, 0xff, 9]),
    (
        [-2147483648, 0x7f12_3456, 3],
        [0, 0, 0, 0x56, 0x34, 0x12, 9],
    ),
];

fn two_packed((samples, low): &([i32; 3], [u8; 7])) -> bool {
    let mut bytes = [9u8; 7];
    scarletbook_pcm::pack_s24le(samples, &mut bytes);
    bytes == *low
}

pub fn all<R: Print + AllocGlobal>(rt: &R) -> io::Result<()> {
    let alloc = rt.alloc();
    print_right(rt, "one byte throughout", &CONSTANTS, |case| {
        Ok(constant_right(case))
    })?;
    print_right(
        rt,
        "desk as rack",
        &[0u8, 1, 8],
        |n| desk_as_rack(alloc, *n),
    )?;
    print_right(rt, "three samples in 7 bytes", &PACKED, |case| {
        Ok(two_packed(case))
    })
}
