// Stored cases: lines of four tables, and bytes. compare/tracks.py says what stands where.
use c_tracks::Asked;
use std::alloc::{AllocError, Global};
use test_support::{behind, float, up_to};
use tracks_open::Tracks;

pub type Row = [u64; 45];

#[derive(Clone, Copy)]
pub struct Tables<'a> {
    pub tracks: &'a [[u64; 6]],
    pub steps: &'a [[u64; 7]],
    pub parts: &'a [[u64; 5]],
    pub bytes: &'a [u8],
}

impl<'a> Tables<'a> {
    fn stretch(self, place: u64, length: u64) -> &'a [u8] {
        up_to(behind(self.bytes, place), length)
    }
}

#[derive(Clone, Copy)]
pub struct Case<'a> {
    pub row: &'a Row,
    pub tables: Tables<'a>,
}

impl<'a> Case<'a> {
    // The tracks, and all in one file.
    pub fn lines(self) -> &'a [[u64; 6]] {
        up_to(
            behind(self.tables.tracks, self.row[5]),
            self.row[6].saturating_add(1),
        )
    }

    pub fn tracks(self) -> &'a [[u64; 6]] {
        up_to(self.lines(), self.row[6])
    }

    pub fn steps(self) -> &'a [[u64; 7]] {
        up_to(behind(self.tables.steps, self.row[7]), self.row[8])
    }

    // A step's part of each track.
    pub fn parts(self, step: &[u64; 7]) -> &'a [[u64; 5]] {
        up_to(behind(self.tables.parts, step[6]), self.row[6])
    }

    pub fn answer(self) -> u64 {
        self.row[9]
    }

    pub fn numbers(self) -> &'a [u64] {
        let row = self.row;
        let row = &row[..];
        &row[11..19]
    }

    // The samples of a converted album.
    pub fn data(self) -> &'a [u8] {
        self.tables.stretch(self.row[19], self.row[20])
    }

    pub fn stats(self) -> Option<&'a [u64; 24]> {
        let row = self.row;
        row.last_chunk::<24>()
    }

    // What is stored of a track's file.
    pub fn file(self, line: &[u64; 6]) -> &'a [u8] {
        self.tables.stretch(line[0], line[1])
    }

    pub fn header(self, line: &[u64; 6]) -> &'a [u8] {
        self.tables.stretch(line[4], line[5])
    }
}

// What the calls are given of a case.
#[derive(Drop)]
pub struct Files {
    numbers: [u64; 8],
    gain: [f64; 2],
    taps: [i32; 117],
    heads: Vec<u8>,
    lengths: Vec<u64>,
}

impl Files {
    pub fn of(alloc: Global, case: Case<'_>) -> Result<Files, AllocError> {
        let mut heads = Vec::new(alloc);
        let mut lengths = Vec::new(alloc);
        for line in case.tracks() {
            heads.extend_from_slice(up_to(case.file(line), 92))?;
            lengths.push(line[2])?;
        }
        let row = case.row;
        Ok(Files {
            numbers: [row[0], row[1], 0, 0, 0, 0, 0, 0],
            gain: [float(row[2]), float(row[3])],
            taps: [0; 117],
            heads,
            lengths,
        })
    }

    pub fn asked(&self) -> Asked<'_> {
        Asked {
            numbers: &self.numbers,
            gain: &self.gain,
            taps: &self.taps,
            tracks: Tracks {
                heads: &self.heads,
                lengths: &self.lengths,
            },
        }
    }
}
