// DSF files written and read back, and their lengths.
ghost use Rattle.std.specs.Prelude.{◌<◌};

use crate::said::read_alike;
use std::alloc::Global;
use std::io;
use std::rt::Files;
use test_support::{answered, digest, print_right, refusal, rows_of, stored_numbers};

// Whether a file holds these frames, each of so many bytes.
fn holds(alloc: Global, file: &[u8], frames: &[u8], size: usize) -> io::Result<bool>
    requires { 0 < size }
{
    let held = dsf::read(file).map_or(0, |header| header.frames);
    if held != (frames.len() / size) as u64 {
        return Ok(false);
    }
    for (k, frame) in (0..held).zip(frames.chunks_exact(size)) {
        let mut room = vec![in alloc; 0x5au8; size]?;
        if dsf_frames::frame(file, k, &mut room).is_err() || room.as_slice() != frame {
            return Ok(false);
        }
    }
    Ok(true)
}

// Channels, bytes of frames and their seed, the output's length; the answer, and the digest of the output after the
// call.
fn written_right(alloc: Global, row: &[u64; 8]) -> io::Result<bool> {
    let [channels, size, seed, room, number, first, second, left] = *row;
    let mut frames = vec![in alloc; 0u8; size as usize]?;
    let mut file = vec![in alloc; 0x5au8; room as usize]?;
    test_support::fill(seed, &mut frames);
    let answer = answered(dsf_write::write((channels % 256) as u8, &frames, &mut file));
    if answer != refusal(number, first, second) || digest(&file) != left {
        return Ok(false);
    }
    let size = 4704 * (channels % 7) as usize;
    if !answer.is_accepted() {
        return Ok(true);
    }
    Ok(size != 0 && holds(alloc, &file, &frames, size)?)
}

// Channels and bytes of frames; the answer, and the file's length.
fn length_right(&[channels, bytes, number, first, second, length]: &[u64; 6]) -> bool {
    let answer = dsf_write::file_length((channels % 256) as u8, bytes as usize);
    answered(answer) == refusal(number, first, second) && answer.unwrap_or(0) as u64 == length
}

pub fn all<R: Files + Print + AllocGlobal>(rt: &R) -> io::Result<()> {
    let alloc = rt.alloc();
    let files = stored_numbers(rt, "written")?;
    print_right(
        rt,
        "files written",
        rows_of::<8>(rt, "written", &files)?,
        |row| { written_right(alloc, row) },
    )?;
    let lengths = stored_numbers(rt, "lengths")?;
    if !read_alike(rt, "lengths", &lengths) {
        println!(rt; "lengths is read otherwise by numbers")?;
    }
    print_right(
        rt,
        "lengths",
        rows_of::<6>(rt, "lengths", &lengths)?,
        |row| { Ok(length_right(row)) },
    )
}
