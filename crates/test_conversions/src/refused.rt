// Document 01's table: each place's number and data as the original gives them (data/), and nothing written. Number 5
// is left to its proof: it wants 2.5 GB of frames.
use crate::calls::{Call, Form, Room, WAYS, Way};
use crate::{calls, input};
use reference::{Converter, Length, Run, Settings};
use std::alloc::Global;
use std::io;
use std::rt::Files;
use test_support::{Told, answered, gain, print_right, refusal, rows_of, stored_numbers, up_to};

// A call (1 `convert_run`, 2 `convert_frame`, 3 `convert`, 4 `convert_desk`), lengths of before, run, after, output and
// counts; number and data. Or settings: route, channels, decibels and factor as bits, and two zeros; number and data.
type Row = [u64; 9];

// Calls in document 02's own numbers: over 8 frames at the desk, and the places before and after that one, each call
// with more wrong further down; the same of the rack; neighbours that are present and empty; and no frames, which are
// accepted.
const OURS: [Row; 12] = [
    [4, 0, 42337, 0, 1, 3, 4, 42337, 0],
    [4, 0, 42336, 0, 1, 3, 16, 0, 0],
    [4, 0, 37632, 0, 1, 3, 13, 0, 0],
    [4, 4704, 37632, 1, 1, 3, 14, 1, 0],
    [4, 4704, 37632, 4704, 28223, 3, 7, 28223, 28224],
    [4, 4704, 37632, 4704, 28224, 3, 8, 3, 8],
    [3, 0, 42336, 0, 1, 3, 13, 0, 0],
    [1, 0, 4704, 4704, 1176, 0, 13, 0, 0],
    [1, 4704, 4704, 0, 1176, 0, 14, 0, 0],
    [1, 0, 4704, 0, 1176, 0, 13, 0, 0],
    [1, 4704, 0, 4704, 0, 0, 0, 0, 0],
    [3, 4704, 0, 4704, 0, 0, 0, 0, 0],
];

// A record whose factor is not its decibels' (-0 dB with the float after 1): the original has no such refusal.
const FACTOR: Row = [
    0,
    1,
    0x8000_0000_0000_0000,
    0x3ff0_0000_0000_0001,
    0,
    0,
    3,
    0x8000_0000_0000_0000,
    0,
];

// Whether an answer is the row's, where a wrong neighbour, 13 or 14, is the original's `InputLength`, one frame.
fn is_told(told: Told, row: &Row) -> bool {
    let right = refusal(row[6], row[7], row[8]);
    match told.number {
        13 | 14 => { told == right || refusal(4, told.first, Length::OneFrame.number()) == right }
        _ => told == right,
    }
}

// Whether a call with both neighbours of lists of these lengths, and the counts lent, is answered as the row says, and
// writes nothing.
fn refused(
    alloc: Global,
    way: Way,
    conv: Converter,
    lengths: [u64; 5],
    row: &Row,
) -> io::Result<bool> {
    let [before, frames, after, out, counts] = lengths;
    let bytes = [0u8; 42337];
    let run = Run {
        has_before: true,
        before: up_to(&bytes, before),
        frames: up_to(&bytes, frames),
        has_after: true,
        after: up_to(&bytes, after),
    };
    let room = Room {
        samples: out as usize,
        bytes: out as usize,
        counts: Some(counts as usize),
    };
    let made = calls::called(alloc, way, conv, run, room)?;
    Ok(is_told(made.told(), row) && made.is_refused(made.told()))
}

// At 88,200 Hz, mono.
fn lengths_refused(alloc: Global, row: &Row) -> io::Result<bool> {
    let call = match row[0] {
        1 => Call::Run,
        2 => Call::Frame,
        3 => Call::Rack,
        _ => Call::Desk,
    };
    let conv = input::converter(0, 1, 0.0);
    let lengths = [row[1], row[2], row[3], row[4], row[5]];
    let record = refused(alloc, (call, Form::Record), conv, lengths, row)?;
    Ok(record && refused(alloc, (call, Form::Parts), conv, lengths, row)?)
}

fn settings(row: &Row) -> Settings {
    test_support::settings(row[0], row[1], gain(row[2], row[3]), None)
}

// Wrong settings, with wrong lengths too, at opening and at each call.
fn settings_refused(alloc: Global, row: &Row) -> io::Result<bool> {
    let opened = scarletbook_pcm::open(settings(row));
    let mut right = is_told(answered(opened), row);
    let conv = settings(row).converter();
    for way in WAYS {
        right = refused(alloc, way, conv, [1, 1, 1, 1, 3], row)? && right;
    }
    Ok(right)
}

pub fn all<R: Files + Print + AllocGlobal>(rt: &R) -> io::Result<()> {
    let alloc = rt.alloc();
    let wrong = |row: &Row| settings_refused(alloc, row);
    let lengths = |row: &Row| lengths_refused(alloc, row);
    let rows = stored_numbers(rt, "refused_settings")?;
    print_right(
        rt,
        "refused settings",
        rows_of::<9>(rt, "refused_settings", &rows)?,
        &wrong,
    )?;
    print_right(rt, "another factor refused", &[FACTOR], &wrong)?;
    let rows = stored_numbers(rt, "refused_lengths")?;
    print_right(
        rt,
        "refused lengths",
        rows_of::<9>(rt, "refused_lengths", &rows)?,
        &lengths,
    )?;
    print_right(rt, "lengths of document 02", &OURS, &lengths)
}
