// WAV files: every rate, one and two channels, 0 to 3 frames, written, read and written back; and what the second entry
// refuses.
use reference::PcmRate;
use std::alloc::{AllocError, Global};
use std::rt::Files;
use std::{array, io};
use test_support::{answered, bytes_of, print_right, refusal};

#[derive(Clone, Copy)]
pub struct Case {
    // From 0, as the stored headers stand in order.
    pub number: usize,
    pub rate: PcmRate,
    pub channels: u8,
}

pub fn cases() -> [Case; 24] {
    array::from_fn(|k| Case {
        number: k,
        rate: test_support::rate((k / 8) as u64),
        channels: if k / 4 % 2 == 0 { 1 } else { 2 },
    })
}

impl Case {
    // The bytes of its samples: those that the seed 1 stands for.
    fn samples(&self, alloc: Global) -> Result<Vec<u8>, AllocError> {
        let n = self.number % 4 * self.channels as usize * 3 * self.rate.samples_per_frame();
        let mut bytes = vec![in alloc; 0u8; n]?;
        test_support::fill(1, &mut bytes);
        Ok(bytes)
    }
}

// The file of some sample bytes; an empty one where they are refused.
fn written(alloc: Global, case: Case, bytes: &[u8]) -> Result<Vec<u8>, AllocError> {
    let mut file = vec![in alloc; 0u8; bytes.len().saturating_add(44)]?;
    if wav_format::write(case.rate, case.channels, bytes, &mut file).is_err() {
        return Ok(Vec::new(alloc));
    }
    Ok(file)
}

pub fn made(alloc: Global, case: Case) -> Result<Vec<u8>, AllocError> {
    written(alloc, case, &case.samples(alloc)?)
}

// Header and data are those of Python's file, it is read as it was written, and gives the same file again.
fn file_right(alloc: Global, headers: &[[u8; 44]], case: Case) -> io::Result<bool> {
    let bytes = case.samples(alloc)?;
    let file = written(alloc, case, &bytes)?;
    let data = wav_format::samples_of(&file);
    let headed = headers
        .get(case.number)
        .is_some_and(|h| file.starts_with(h));
    let Ok(format) = wav_format::read(&file) else {
        return Ok(false);
    };
    Ok(
        headed
            && format.rate == case.rate
            && format.channels == case.channels
            && data == bytes.as_slice()
            && test_support::behind(&file, 44) == bytes.as_slice()
            && written(alloc, case, data)?.as_slice() == file.as_slice(),
    )
}

// At 88,200 Hz: channels, bytes and bytes of output; the refusal's number and data. First other channels, then bytes
// that are no whole frames, output of another length, and 12 before 7.
const REFUSED: [[u64; 6]; 12] = [
    [0, 3528, 3572, 12, 0, 0],
    [3, 3528, 3572, 12, 0, 0],
    [255, 3528, 3572, 12, 0, 0],
    [1, 3527, 3571, 12, 0, 0],
    [1, 3529, 3573, 12, 0, 0],
    [2, 3528, 3572, 12, 0, 0],
    [2, 7057, 7101, 12, 0, 0],
    [1, 3528, 3571, 7, 3571, 3572],
    [1, 3528, 3573, 7, 3573, 3572],
    [2, 7056, 0, 7, 0, 7100],
    [1, 0, 43, 7, 43, 44],
    [3, 3528, 0, 12, 0, 0],
];

// The output keeps its bytes.
fn is_refused(alloc: Global, row: &[u64; 6]) -> io::Result<bool> {
    let [channels, n, room, number, first, second] = *row;
    let bytes = vec![in alloc; 0u8; n as usize]?;
    let mut out = vec![in alloc; 7u8; room as usize]?;
    let answer = wav_format::write(PcmRate::Hz88200, (channels % 256) as u8, &bytes, &mut out);
    Ok(answered(answer) == refusal(number, first, second) && out.iter().all(|b| *b == 7))
}

pub fn all<R: Files + Print + AllocGlobal>(rt: &R) -> io::Result<()> {
    let alloc = rt.alloc();
    let text = bytes_of(rt, "wav_headers")?;
    let headers = text.as_chunks::<44>().0;
    print_right(rt, "WAV files", &cases(), |case| {
        file_right(alloc, headers, *case)
    })?;
    print_right(rt, "WAV files refused", &REFUSED, |row| {
        is_refused(alloc, row)
    })
}
