// The bytes of a conversion, by the rule of compare/answers; digests; converters.
use reference::{Converter, Gain, Run};
use std::alloc::{AllocError, Global};
use test_support::{next, top};

// What the bytes are: chance, one byte, loud, or chance that repeats after so many bytes.
#[derive(Clone, Copy)]
pub enum Pattern {
    Chance,
    Constant,
    Loud,
    Repeating(usize),
}

impl Pattern {
    // Chance repeats after 4 bytes of each channel.
    fn of_row(pattern: u64, channels: u64) -> Pattern {
        match pattern {
            1 => Pattern::Constant,
            2 => Pattern::Loud,
            3 => Pattern::Repeating(4 * (channels % 7) as usize),
            _ => Pattern::Chance,
        }
    }

    // Whether the sequence starts anew at byte k.
    fn starts_anew(self, k: usize) -> bool {
        match self {
            Pattern::Repeating(period) => period != 0 && k % period == 0,
            _ => false,
        }
    }
}

// Mostly 0xFF or 0x00, in stretches.
fn loud(k: usize, high: u8) -> u8 {
    if high < 16 {
        return high;
    }
    if k / 300 % 2 == 0 { 0xff } else { 0 }
}

pub fn made(alloc: Global, pattern: Pattern, seed: u64, n: usize) -> Result<Vec<u8>, AllocError> {
    let mut bytes = vec![in alloc; 0u8; n]?;
    let mut x = seed;
    for (k, byte) in bytes.iter_mut().enumerate() {
        x = next(if pattern.starts_anew(k) { seed } else { x });
        *byte = match pattern {
            Pattern::Constant => (seed % 256) as u8,
            Pattern::Loud => loud(k, top(x)),
            _ => top(x),
        };
    }
    Ok(bytes)
}

// A neighbour that is not there has bytes all the same, which no call may read: an `Option` would hand it none.
#[derive(Drop)]
pub struct Input {
    pub has_before: bool,
    pub before: Vec<u8>,
    pub frames: Vec<u8>,
    pub has_after: bool,
    pub after: Vec<u8>,
}

impl Input {
    // By the first seven numbers of a row, which are route, channels, decibels, a length, neighbours (1 before, 2
    // after), pattern and seed; the seed and the next two are those of the frames and of their neighbours.
    pub fn new(alloc: Global, row: [u64; 7], bytes: usize) -> Result<Input, AllocError> {
        let [_, channels, _, _, neighbours, pattern, seed] = row;
        let pattern = Pattern::of_row(pattern, channels);
        let seed = seed % 0x1_0000_0000;
        let frame = 4704 * (channels % 256) as usize;
        Ok(Input {
            has_before: neighbours % 2 == 1,
            before: made(alloc, pattern, seed + 1, frame)?,
            frames: made(alloc, pattern, seed, bytes)?,
            has_after: neighbours / 2 == 1,
            after: made(alloc, pattern, seed + 2, frame)?,
        })
    }

    pub fn run(&self) -> Run<'_> {
        Run {
            has_before: self.has_before,
            before: &self.before,
            frames: &self.frames,
            has_after: self.has_after,
            after: &self.after,
        }
    }
}

// Two digests of a list.
pub type Digest = [u64; 2];

fn with([first, second]: Digest, x: u64) -> Digest {
    let n = x % 0x1_0000_0000;
    [
        (first % 1000000007 * 1000003 + n) % 1000000007,
        (second % 998244353 * 131071 + n) % 998244353,
    ]
}

// A sample, made positive.
pub fn biased(s: i32) -> u64 {
    (s as i64 + 0x8000_0000) as u64
}

pub fn of_samples(s: &[i32]) -> Digest {
    s.iter().fold([1, 1], |d, x| with(d, biased(*x)))
}

pub fn of_bytes(s: &[u8]) -> Digest {
    s.iter().fold([1, 1], |d, b| with(d, u64::from(*b)))
}

// The record that the gain call makes of decibels, or of 0 dB where it refuses.
pub fn gain_of(db: f64) -> Gain {
    gain::from_db(db).unwrap_or(Gain {
        db: 0.0,
        linear: 1.0,
    })
}

// With the built-in filter.
pub fn converter(route: u64, channels: u64, db: f64) -> Converter {
    test_support::settings(route, channels, gain_of(db), None).converter()
}
