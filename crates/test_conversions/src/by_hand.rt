// Records made by hand: a change of each, and each conversion with it.
use crate::calls::{Call, Made, Room, WAYS};
use crate::{calls, changed};
use reference::{Converter, Filter, Length, Run};
use std::alloc::Global;
use std::io;
use std::rt::Files;
use test_support::{
    Told, cutoff, gain, print_right, rate, refusal, rows_of, stored_numbers, up_to,
};

// A record: route, channels, decibels, factor, the filter's count and two taps, the numbers that it stores. A change:
// route, decibels, factor, the answer, the record's six numbers after it. A conversion: bytes of the frame, samples of
// output, the answer.
type Row = [u64; 27];

fn filter(row: &Row) -> Filter {
    changed::filter(row[4], row[5], row[6])
}

fn record(row: &Row) -> Converter {
    Converter {
        rate: rate(row[0]),
        cutoff: cutoff(row[0]),
        channels: (row[1] % 256) as u8,
        gain: gain(row[2], row[3]),
        filter: filter(row),
        samples_per_frame: row[7] as usize,
        reach: row[8] as usize,
        frame_length: row[9] as usize,
    }
}

fn change_right(row: &Row) -> bool {
    let mut conv = record(row);
    match row[10..].first_chunk::<12>() {
        Some(change) => changed::change_right(&mut conv, row[1], filter(row), change),
        None => false,
    }
}

// Accepted and written, or the row's refusal.
fn is_right(row: &Row, call: Call, made: &Made) -> bool {
    let length = match call {
        Call::Frame => Length::OneFrame,
        _ => Length::WholeFrames,
    };
    match row[24] {
        0 => made.told() == Told::ACCEPTED && !made.is_kept(),
        4 => made.is_refused(refusal(4, row[25], length.number())),
        _ => made.is_refused(refusal(row[24], row[25], row[26])),
    }
}

// One frame by every call; a file has room for its header.
fn conversions_right(alloc: Global, row: &Row, noise: &[u8]) -> io::Result<bool> {
    let run = Run {
        has_before: false,
        before: &[],
        frames: up_to(noise, row[22]),
        has_after: false,
        after: &[],
    };
    for way in WAYS {
        let header = if way.0 == Call::File { 44 } else { 0 };
        let room = Room {
            samples: row[23] as usize,
            bytes: (row[23] as usize).saturating_mul(3).saturating_add(header),
            counts: Some(1),
        };
        let made = calls::called(alloc, way, record(row), run, room)?;
        if !is_right(row, way.0, &made) {
            return Ok(false);
        }
    }
    Ok(true)
}

pub fn all<R: Files + Print + AllocGlobal>(rt: &R) -> io::Result<()> {
    let alloc = rt.alloc();
    let records = stored_numbers(rt, "records")?;
    let mut noise = [0u8; 9408];
    test_support::fill(70, &mut noise);
    let rows = rows_of::<27>(rt, "records", &records)?;
    print_right(rt, "records changed", rows, |row| Ok(change_right(row)))?;
    print_right(rt, "records converted with", rows, |row| {
        conversions_right(alloc, row, &noise)
    })
}
