// The bytes of the albums that are cut, and of the pieces and neighbours that are cut from them.
use std::alloc::{AllocError, Global};
use std::ops::Range;
use test_support::{next, top};

// Bytes of a frame of both channels.
const FRAME: usize = 9408;

// What an album holds.
#[derive(Clone, Copy, PartialEq, Eq)]
pub enum Sound {
    // Silence at two cuts, chance elsewhere.
    Silence,
    // Two tones, other ones in each channel.
    Chord,
}

// Byte j of a channel: silence within 200 bytes of the cut after frame 0 and of the one after frame 2.
fn silence(j: usize, x: u64) -> u8 {
    let near = if j / 4704 % 2 == 0 {
        j % 4704 >= 4504
    } else {
        j % 4704 < 200
    };
    if near { 0x69 } else { top(x) }
}

// Two tones at byte j: both up, one up, none up.
fn tones(j: usize, up: bool, other: bool) -> u8 {
    match (up, other) {
        (true, true) => { if j % 3 == 0 { 0xfb } else { 0xff } }
        (false, false) => 0x49,
        _ => 0xd6,
    }
}

fn chord(c: usize, j: usize) -> u8 {
    if c == 0 {
        return tones(j, j % 37 < 20, j % 50 < 26);
    }
    tones(j, j % 41 < 22, j % 60 < 29)
}

// A whole album of four frames: channels take turns.
pub fn album(alloc: Global, sound: Sound) -> Result<Vec<u8>, AllocError> {
    let mut bytes = vec![in alloc; 0u8; 4 * FRAME]?;
    let mut x = 7u64;
    for (k, byte) in bytes.iter_mut().enumerate() {
        x = next(x);
        *byte = match sound {
            Sound::Silence => silence(k / 2, x),
            Sound::Chord => chord(k % 2, k / 2),
        };
    }
    Ok(bytes)
}

// So many frames of it from one on, which is counted from the one before the album: right in this range of each
// channel's bytes, else junk. An album is idle outside.
pub fn part(
    alloc: Global,
    album: &[u8],
    from: usize,
    frames: usize,
    right: Range<usize>,
) -> Result<Vec<u8>, AllocError> {
    let mut bytes = vec![in alloc; 0u8; frames.saturating_mul(FRAME)]?;
    let start = from.saturating_mul(FRAME);
    for (k, byte) in bytes.iter_mut().enumerate() {
        let place = start.saturating_add(k);
        *byte = match right.contains(&(k / 2)) {
            false => (k % 256 * 7 % 256) as u8,
            true if place < FRAME => 0x69,
            true => album.get(place - FRAME).copied().unwrap_or(0x69),
        };
    }
    Ok(bytes)
}
