// Albums of one file: how each opens, and the header of its plain WAV file; parts of jobs. compare/albums.py says what
// stands where. Their samples and sentences are command/stored.py's to compare.
use c_tracks::Asked;
use std::io;
use std::rt::Files;
use test_support::{
    behind, bytes_of, float, print_right, put, rate_of_hertz, rows_of, stored_numbers, up_to,
};
use tracks_open::Tracks;
use wave_headers::Format;

type Row = [u64; 24];

// Bytes that are stored from a row's place on, as many as the number behind it says.
fn stored(bytes: &[u8], place: u64, length: u64) -> &[u8] {
    up_to(behind(bytes, place), length)
}

// The answer and the album's numbers. 12 is the header's to say. A file that is shorter has zeros behind it.
fn opens(row: &Row, file: &[u8]) -> bool {
    let mut head = [0u8; 92];
    put(&mut head, 0, file);
    let lengths = [row[4]];
    let tracks = Tracks {
        heads: &head,
        lengths: &lengths,
    };
    let numbers = [row[0], row[1], 0, 0, 0, 0, 0, 0];
    let gain = [float(row[2]), float(row[3])];
    let asked = Asked {
        numbers: &numbers,
        gain: &gain,
        taps: &[0; 117],
        tracks,
    };
    let mut album = [0; 8];
    let answer = c_tracks::open(
        asked,
        &mut album,
        &mut [0; 2],
        &mut [0],
        &mut [0; 2],
        &mut [0.0],
    );
    let expected = if row[5] == 12 { 0 } else { row[5] };
    u64::from(answer) == expected && album[..] == row[8..16]
}

fn headed(row: &Row, wav: &[u8]) -> bool {
    let mut out = [7; 104];
    let made = wave_headers::header(
        Format::Wav,
        rate_of_hertz(row[0]),
        row[8],
        row[9],
        row[12],
        &mut out,
    );
    match made {
        Ok(length) => row[5] == 0 && wav.starts_with(up_to(&out, length)),
        Err(e) => row[5] == 12 && e.number() == 12,
    }
}

fn single_right(row: &Row, bytes: &[u8]) -> bool {
    let refused = row[5] != 0 && row[5] != 12;
    opens(row, stored(bytes, row[16], row[17]))
        && (refused || headed(row, stored(bytes, row[18], row[19])))
}

fn part_right(&[frames, jobs, j, first, end]: &[u64; 5]) -> bool {
    let mut pieces = [7; 2];
    c_tracks::part(frames, jobs, j, &mut pieces);
    pieces == [first, end]
}

pub fn all<R: Files + Print + AllocGlobal>(rt: &R) -> io::Result<()> {
    let bytes = bytes_of(rt, "single_bytes")?;
    let rows = stored_numbers(rt, "singles")?;
    print_right(
        rt,
        "albums of one file",
        rows_of::<24>(rt, "singles", &rows)?,
        |row| { Ok(single_right(row, &bytes)) },
    )?;
    let rows = stored_numbers(rt, "shares")?;
    print_right(
        rt,
        "parts",
        rows_of::<5>(rt, "shares", &rows)?,
        |row| Ok(part_right(row)),
    )
}
