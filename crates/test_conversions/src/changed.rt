// Lists of changes: each answer, the record held after it, and a conversion after the last one.
use crate::calls;
use crate::calls::{Call, Form, Made, Room};
use reference::{Converter, Filter, Run, Settings};
use std::alloc::{AllocError, Global};
use std::io;
use std::rt::Files;
use test_support::{
    Told, answered, bits, clipped, cutoff, gain, print_right, rate, refusal, route, rows_of,
    stored_numbers, up_to,
};

// Route, channels, decibels, factor, whether the filter is the row's own, its count and two taps; the opening's answer
// and the numbers that it stores; six changes, each a route, decibels, a factor, the answer, and the record's six
// numbers after it.
type Row = [u64; 86];

fn tap(n: u64) -> i32 {
    (n % 0x8000_0000) as i32
}

// A centre and a second tap; the others are 0.
pub fn filter(count: u64, centre: u64, second: u64) -> Filter {
    let mut taps = [0i32; 117];
    taps[0] = tap(centre);
    taps[1] = tap(second);
    Filter {
        taps,
        count: count as usize,
    }
}

// Whether a record has these channels and this filter, and route, decibels, factor, and the numbers that it stores.
pub fn is(conv: Converter, channels: u64, filter: Filter, six: [u64; 6]) -> bool {
    let found = [
        route(conv.rate, conv.cutoff),
        bits(conv.gain.db),
        bits(conv.gain.linear),
        conv.samples_per_frame as u64,
        conv.reach as u64,
        conv.frame_length as u64,
    ];
    found == six
        && conv.channels as u64 == channels
        && conv.filter.count == filter.count
        && conv.filter.taps == filter.taps
}

// A change of a record: a route, decibels and a factor, the answer, and the record's six numbers after it.
pub fn change_right(
    conv: &mut Converter,
    channels: u64,
    filter: Filter,
    change: &[u64; 12],
) -> bool {
    let [new, db, factor, number, first, second, a, b, c, d, e, f] = *change;
    let answer = scarletbook_pcm::change(conv, rate(new), cutoff(new), gain(db, factor));
    answered(answer) == refusal(number, first, second)
        && is(*conv, channels, filter, [a, b, c, d, e, f])
}

// A route and a gain, with the row's channels and filter.
fn settings(row: &Row, route: u64, db: u64, factor: u64) -> Settings {
    let filter = (row[4] == 1).then_some(filter(row[5], row[6], row[7]));
    test_support::settings(route, row[1], gain(db, factor), filter)
}

// The answer of opening and of a conversion.
fn told(row: &Row) -> Told {
    refusal(row[8], row[9], row[10])
}

// A frame of the row, which the settings held last make into so many samples.
fn converted(alloc: Global, conv: Converter, row: &Row, noise: &[u8]) -> Result<Made, AllocError> {
    let frame = up_to(noise, row[85]);
    let run = Run {
        has_before: false,
        before: &[],
        frames: frame,
        has_after: false,
        after: &[],
    };
    let samples = match row[80] % 3 {
        0 => row[85] / 4,
        1 => row[85] / 2,
        _ => row[85],
    };
    let room = Room {
        samples: samples as usize,
        bytes: 0,
        counts: None,
    };
    calls::called(alloc, (Call::Run, Form::Parts), conv, run, room)
}

// Whether two conversions are answered as the row says, and alike.
fn alike(a: &Made, b: &Made, row: &Row) -> bool {
    a.told() == told(row)
        && b.told() == told(row)
        && clipped(a.done) == clipped(b.done)
        && a.samples.as_slice() == b.samples.as_slice()
}

// The record after all changes converts as one that is newly opened with the settings held last.
fn row_right(alloc: Global, row: &Row, noise: &[u8]) -> io::Result<bool> {
    let first = settings(row, row[0], row[2], row[3]);
    let opened = scarletbook_pcm::open(first);
    let mut conv = opened.unwrap_or(first.converter());
    let six = [row[0], row[2], row[3], row[11], row[12], row[13]];
    let mut right = answered(opened) == told(row) && is(conv, row[1], first.filter(), six);
    for change in row[14..].as_chunks::<12>().0 {
        right = change_right(&mut conv, row[1], first.filter(), change) && right;
    }
    let last = settings(row, row[80], row[81], row[82]);
    let fresh = scarletbook_pcm::open(last).unwrap_or(last.converter());
    let a = converted(alloc, conv, row, noise)?;
    let b = converted(alloc, fresh, row, noise)?;
    Ok(right && alike(&a, &b, row))
}

pub fn all<R: Files + Print + AllocGlobal>(rt: &R) -> io::Result<()> {
    let alloc = rt.alloc();
    let changes = stored_numbers(rt, "changes")?;
    let mut noise = [0u8; 28224];
    test_support::fill(7, &mut noise);
    print_right(
        rt,
        "lists of six changes",
        rows_of::<86>(rt, "changes", &changes)?,
        |row| { row_right(alloc, row, &noise) },
    )
}
