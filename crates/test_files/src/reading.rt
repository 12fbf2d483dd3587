// DSF files read: whole files and frames of them, headers, frames out of windows. A header stands in front of a row, in
// twelve numbers.
use dsf::DsfHeader;
use reference::PcmError;
use std::alloc::{AllocError, Global};
use std::io;
use std::rt::Files;
use test_support::{
    answered, digest, print_right, put, refusal, rows_of, stored_numbers, up_to, words,
};

// What stands in a buffer before a call.
const JUNK: u8 = 0x5a;

// A row's header, and other bytes behind it, which no call may read.
fn head(row: &[u64]) -> [u8; 160] {
    let mut bytes = [0u8; 160];
    words(&mut bytes, up_to(row, 12));
    bytes[92..].fill(JUNK);
    bytes
}

// Whether an opened file is answered by this number, and holds this; zeros where it is refused.
fn opens_as(opened: Result<DsfHeader, PcmError>, number: u64, held: [u64; 5]) -> bool {
    let found = match opened {
        Ok(h) => [
            h.channel_type,
            h.channels,
            h.bits_per_sample,
            h.samples,
            h.frames,
        ],
        Err(_) => [0; 5],
    };
    answered(opened) == refusal(number, 0, 0) && found == held
}

// Header, length, the seed of the bytes behind the header; the answer, and what the file holds.
type File = [u64; 20];

fn made(alloc: Global, row: &File) -> Result<Vec<u8>, AllocError> {
    let mut file = vec![in alloc; 0u8; row[12] as usize]?;
    let front = file.len().min(92);
    test_support::fill(row[13], &mut file[front..]);
    put(&mut file, 0, up_to(&head(row), 92));
    Ok(file)
}

fn file_right(alloc: Global, row: &File) -> io::Result<bool> {
    let held = [row[15], row[16], row[17], row[18], row[19]];
    Ok(opens_as(dsf::read(&made(alloc, row)?), row[14], held))
}

// A frame of a file: the file's number, the frame, the buffer's length; the answer, and the digest of the buffer after
// the call.
fn frame_right(alloc: Global, files: &[File], row: &[u64; 7]) -> io::Result<bool> {
    let [k, frame, room, number, first, second, left] = *row;
    let Some(file) = files.get(k as usize) else {
        return Ok(false);
    };
    let file = made(alloc, file)?;
    let mut out = vec![in alloc; JUNK; room as usize]?;
    let answer = answered(dsf_frames::frame(&file, frame, &mut out));
    Ok(answer == refusal(number, first, second) && digest(&out) == left)
}

pub fn files<R: Files + Print + AllocGlobal>(rt: &R) -> io::Result<()> {
    let alloc = rt.alloc();
    let list = stored_numbers(rt, "files")?;
    let files = rows_of::<20>(rt, "files", &list)?;
    print_right(rt, "files", files, |row| file_right(alloc, row))?;
    let frames = stored_numbers(rt, "frames")?;
    print_right(rt, "frames", rows_of::<7>(rt, "frames", &frames)?, |row| {
        frame_right(alloc, files, row)
    })
}

// How many bytes of the header are lent, the file's length; the answer, and what the file holds.
fn header_right(row: &[u64; 20]) -> bool {
    let held = [row[15], row[16], row[17], row[18], row[19]];
    let bytes = head(row);
    opens_as(
        dsf::read_header(up_to(&bytes, row[12]), row[13]),
        row[14],
        held,
    )
}

// The window that a frame needs, by the header's channels and samples.
fn window_right(row: &[u64; 25]) -> bool {
    let needed = match dsf_frames::window(row[6] / 0x1_0000_0000, row[8], row[14]) {
        Some(window) => [window.start, window.end],
        None => [0, 0],
    };
    needed == [row[23], row[24]]
}

// How many bytes of the header are lent, the file's length, the frame, the window's start, seed and length, the
// buffer's length; the answer, the digest of the buffer after the call, and the window that is needed.
fn out_of_window(alloc: Global, row: &[u64; 25]) -> io::Result<bool> {
    let [lent, length, frame, start] = [row[12], row[13], row[14], row[15]];
    let mut window = vec![in alloc; 0u8; row[17] as usize]?;
    let mut out = vec![in alloc; JUNK; row[18] as usize]?;
    test_support::fill(row[16], &mut window);
    let bytes = head(row);
    let answer = answered(dsf_frames::window_frame(
        up_to(&bytes, lent),
        length,
        frame,
        &window,
        start,
        &mut out,
    ));
    Ok(answer == refusal(row[19], row[20], row[21]) && digest(&out) == row[22] && window_right(row))
}

pub fn parts<R: Files + Print + AllocGlobal>(rt: &R) -> io::Result<()> {
    let alloc = rt.alloc();
    let headers = stored_numbers(rt, "headers")?;
    print_right(
        rt,
        "headers",
        rows_of::<20>(rt, "headers", &headers)?,
        |row| { Ok(header_right(row)) },
    )?;
    let windows = stored_numbers(rt, "windows")?;
    print_right(
        rt,
        "windows",
        rows_of::<25>(rt, "windows", &windows)?,
        |row| { out_of_window(alloc, row) },
    )
}
