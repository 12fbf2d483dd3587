// Each WAV file with each other value in each byte of its header, a byte short, and a byte long: none is taken.
use crate::wav_files;
use crate::wav_files::Case;
use std::alloc::Global;
use std::io;
use test_support::{answered, print_right, refusal};

// Refused 12, and without sample bytes.
fn is_refused(file: &[u8]) -> bool {
    answered(wav_format::read(file)) == refusal(12, 0, 0) && wav_format::samples_of(file).is_empty()
}

// With how many values in byte k it is refused. The last one is the byte that stood there.
fn refused_at(file: &mut [u8], k: usize) -> u64 {
    let mut refused = 0u64;
    for _ in 0..256 {
        if let Some(byte) = file.get_mut(k) {
            *byte = byte.wrapping_add(1);
        }
        refused = refused.saturating_add(u64::from(is_refused(file)));
    }
    refused
}

fn header_refused(file: &mut [u8]) -> bool {
    let mut right = true;
    for k in 0..44 {
        right = right && refused_at(file, k) == 255;
    }
    right
}

fn all_refused(alloc: Global, case: Case) -> io::Result<bool> {
    let mut file = wav_files::made(alloc, case)?;
    let short = is_refused(&file[..file.len().saturating_sub(1)]);
    let changed = header_refused(&mut file);
    file.push(0)?;
    Ok(short && changed && is_refused(&file))
}

pub fn all<R: Print + AllocGlobal>(rt: &R) -> io::Result<()> {
    let alloc = rt.alloc();
    print_right(rt, "WAV files damaged", &wav_files::cases(), |case| {
        all_refused(alloc, *case)
    })
}
