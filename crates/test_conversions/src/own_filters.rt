// Labels' own filters: each line of data/filters, opened and converted. compare/filters.py writes them, and says what
// stands in a line: the answers are worked out there from document 01's formulas.
use crate::calls;
use crate::calls::{Call, Made, Room, WAYS};
use crate::input::{Input, of_samples};
use reference::{Converter, Filter, Settings};
use std::alloc::Global;
use std::rt::Files;
use std::{array, io};
use test_support::{
    Told, answered, channel_numbers, gain, print_right, refusal, rows_of, stats, stored_numbers,
};

type Row = [u64; 80];

// A tap by its code: t, or 2^31 - 1 - t where t is negative.
fn tap(code: u64) -> i32 {
    let n = (code % 0x8000_0000) as i32;
    if code < 0x8000_0000 { n } else { 0 - n - 1 }
}

// Tap k: two stand in a number.
fn tap_at(codes: &[u64], k: usize) -> i32 {
    let both = codes.get(k / 2).copied().unwrap_or(0);
    if k % 2 == 0 {
        return tap(both / 0x1_0000_0000);
    }
    tap(both % 0x1_0000_0000)
}

// A row's settings, with its filter. The factor is that of 0 dB.
fn settings(row: &Row) -> Settings {
    let codes = &row[16..75];
    let filter = Filter {
        taps: array::from_fn(|k| tap_at(codes, k)),
        count: row[15] as usize,
    };
    let gain = gain(row[2], 0x3ff0_0000_0000_0000);
    test_support::settings(row[0], row[1], gain, Some(filter))
}

fn told(row: &Row) -> Told {
    refusal(row[7], row[8], row[9])
}

// Whether a row is refused for its settings: opening looks at these alone.
fn by_settings(row: &Row) -> bool {
    let told = told(row);
    !told.is_accepted() && told.number != 4
}

// The row's samples and reach, the clips of the first two channels, how far over they are, and their marks.
fn holds(made: &Made, conv: Converter, row: &Row) -> bool {
    let [first, second, ..] = stats(made.done).channels;
    made.done.is_ok()
        && channel_numbers(first) == [row[13], row[75], row[76], row[79] % 2]
        && channel_numbers(second) == [row[14], row[77], row[78], row[79] / 2]
        && of_samples(&made.samples) == [row[11], row[12]]
        && scarletbook_pcm::context_bytes(conv) as u64 == row[10]
}

fn row_right(alloc: Global, row: &Row) -> io::Result<bool> {
    let [route, channels, db, bytes, neighbours, pattern, seed, ..] = *row;
    let head = [route, channels, db, bytes, neighbours, pattern, seed];
    let input = Input::new(alloc, head, bytes as usize)?;
    let opened = scarletbook_pcm::open(settings(row));
    let wanted = if by_settings(row) {
        told(row)
    } else {
        Told::ACCEPTED
    };
    if answered(opened) != wanted {
        return Ok(false);
    }
    let conv = opened.unwrap_or(settings(row).converter());
    let samples = scarletbook_pcm::samples_per_frame(conv.rate);
    let room = Room {
        samples: samples.saturating_mul(conv.channels as usize),
        bytes: 1,
        counts: Some(1),
    };
    for way in WAYS {
        let made = calls::called(alloc, way, conv, input.run(), room)?;
        if !is_right(way.0, &made, conv, row) {
            return Ok(false);
        }
    }
    Ok(true)
}

// A run is answered as the row says; every call refuses wrong settings alike, before it looks at a length.
fn is_right(call: Call, made: &Made, conv: Converter, row: &Row) -> bool {
    if by_settings(row) || told(row).number == 4 && call == Call::Run {
        return made.is_refused(told(row));
    }
    call != Call::Run || holds(made, conv, row)
}

pub fn all<R: Files + Print + AllocGlobal>(rt: &R) -> io::Result<()> {
    let alloc = rt.alloc();
    let rows = stored_numbers(rt, "filters")?;
    print_right(
        rt,
        "own filters",
        rows_of::<80>(rt, "filters", &rows)?,
        |row| { row_right(alloc, row) },
    )
}
