// Albums of four frames in two channels, cut into pieces of 1, 0, 2 and 1 frames that are converted in turns: every
// piece beside the whole run. Standard at 88,200 Hz, 6 dB.
use crate::calls::{Call, Form, Made, Room, WAYS, Way};
use crate::input::Input;
use crate::sounds::Sound;
use crate::{calls, input, sounds};
use reference::{Converter, Run};
use std::alloc::{AllocError, Global};
use std::io;
use test_support::{behind, print_right, refusal, up_to};

// Samples of a frame of both channels.
const SAMPLES: usize = 2352;

fn standard() -> Converter {
    input::converter(0, 2, 6.0)
}

// The clips of the two channels.
fn clips(made: &Made) -> [u64; 2] {
    let clipped = test_support::clipped(made.done);
    [clipped[0], clipped[1]]
}

// The whole album in one call of each kind.
#[derive(Drop)]
struct Album {
    bytes: Vec<u8>,
    run: Made,
    packed: Made,
}

impl Album {
    fn new(alloc: Global, sound: Sound) -> Result<Album, AllocError> {
        let bytes = sounds::album(alloc, sound)?;
        let run = Run {
            has_before: false,
            before: &[],
            frames: &bytes,
            has_after: false,
            after: &[],
        };
        let room = Room {
            samples: 4 * SAMPLES,
            bytes: 12 * SAMPLES,
            counts: Some(4),
        };
        let samples = calls::called(alloc, (Call::Run, Form::Parts), standard(), run, room)?;
        let packed = calls::called(alloc, (Call::Rack, Form::Parts), standard(), run, room)?;
        Ok(Album {
            bytes,
            run: samples,
            packed,
        })
    }

    // How many samples have the low 24 bits that the bytes hold.
    fn low_equal(&self) -> usize {
        let packed = self.packed.bytes.as_chunks::<3>().0.iter();
        packed
            .zip(&self.run.samples)
            .filter(|(three, sample)| sample.to_le_bytes().starts_with(three.as_slice()))
            .count()
    }
}

// Both calls accept the album, and give the same; some of the samples of each channel of the chord clip, and some do
// not.
fn whole_right(alloc: Global, sound: Sound) -> io::Result<bool> {
    let album = Album::new(alloc, sound)?;
    let [first, second] = clips(&album.run);
    let in_part = 0 < first && first < 4704 && 0 < second && second < 4704;
    Ok(
        album.run.done.is_ok()
            && album.packed.done.is_ok()
            && album.low_equal() == 4 * SAMPLES
            && clips(&album.packed) == [first, second]
            && (sound == Sound::Silence || in_part),
    )
}

// A piece starts at a frame of the album. A neighbour that is not there has bytes all the same.
#[derive(Clone, Copy)]
struct Piece {
    from: u8,
    frames: u8,
    has_before: bool,
    has_after: bool,
}

// The first piece has an idle frame before it, or the last one after it.
fn cut(idle_before: bool) -> [Piece; 4] {
    [(0, 1), (1, 0), (1, 2), (3, 1)].map(|(from, frames)| Piece {
        from,
        frames,
        has_before: from != 0 || idle_before,
        has_after: from != 3 || !idle_before,
    })
}

impl Piece {
    // The frames, and of each neighbour no more than the reach; all else is junk.
    fn input(self, alloc: Global, album: &[u8]) -> Result<Input, AllocError> {
        let reach = scarletbook_pcm::context_bytes(standard()).min(4704);
        let from = usize::from(self.from);
        let n = usize::from(self.frames);
        Ok(Input {
            has_before: self.has_before,
            before: sounds::part(alloc, album, from, 1, 4704 - reach..4704)?,
            frames: sounds::part(alloc, album, from + 1, n, 0..0x1_0000)?,
            has_after: self.has_after,
            after: sounds::part(alloc, album, from + n + 1, 1, 0..reach)?,
        })
    }

    fn room(self, counts: bool) -> Room {
        let n = usize::from(self.frames);
        Room {
            samples: n * SAMPLES,
            bytes: 3 * n * SAMPLES,
            counts: counts.then_some(n),
        }
    }

    // Whether a call gave this part of the album.
    fn holds(self, album: &Album, call: Call, made: &Made) -> bool {
        let first = u64::from(self.from) * 2352;
        let bytes = behind(&album.packed.bytes, 3 * first);
        let counts = behind(&album.packed.counts, u64::from(self.from));
        match call {
            Call::Run => behind(&album.run.samples, first).starts_with(&made.samples),
            _ => bytes.starts_with(&made.bytes) && counts.starts_with(&made.counts),
        }
    }
}

// One frame with output one sample or one byte short, and with a frame before that is one byte short.
fn short_refused(alloc: Global, (call, form): Way, input: &Input) -> Result<bool, AllocError> {
    let short = match call {
        Call::Run => refusal(6, 2351, 2352),
        _ => refusal(7, 7055, 7056),
    };
    let mut room = Room {
        samples: 2351,
        bytes: 7055,
        counts: None,
    };
    let output = calls::called(alloc, (call, form), standard(), input.run(), room)?;
    room.samples = 2352;
    room.bytes = 7056;
    let run = Run {
        has_before: true,
        before: up_to(&input.before, 9407),
        ..input.run()
    };
    let before = calls::called(alloc, (call, form), standard(), run, room)?;
    Ok(output.is_refused(short) && before.is_refused(refusal(13, 9407, 0)))
}

// The clips of a piece, where it is right by the calls for a run, the rack's and the desk's; over the run record no
// counts are lent.
fn piece_clips(alloc: Global, album: &Album, piece: Piece) -> Result<Option<[u64; 2]>, AllocError> {
    let input = piece.input(alloc, &album.bytes)?;
    let mut found = None;
    for (call, form) in up_to(&WAYS, 6) {
        let room = piece.room(*form == Form::Parts);
        let made = calls::called(alloc, (*call, *form), standard(), input.run(), room)?;
        let same = found.unwrap_or(clips(&made)) == clips(&made);
        let refuses = piece.frames != 1 || short_refused(alloc, (*call, *form), &input)?;
        if made.done.is_err() || !same || !refuses || !piece.holds(album, *call, &made) {
            return Ok(None);
        }
        found = Some(clips(&made));
    }
    Ok(found)
}

fn cut_right(alloc: Global, sound: Sound, idle_before: bool) -> io::Result<bool> {
    let album = Album::new(alloc, sound)?;
    let mut sum = [0u64; 2];
    for piece in cut(idle_before) {
        let Some(clips) = piece_clips(alloc, &album, piece)? else {
            return Ok(false);
        };
        sum = [
            sum[0].saturating_add(clips[0]),
            sum[1].saturating_add(clips[1]),
        ];
    }
    Ok(sum == clips(&album.run))
}

const CASES: [(Sound, bool); 4] = [
    (Sound::Silence, false),
    (Sound::Silence, true),
    (Sound::Chord, false),
    (Sound::Chord, true),
];

pub fn all<R: Print + AllocGlobal>(rt: &R) -> io::Result<()> {
    let alloc = rt.alloc();
    print_right(
        rt,
        "whole albums",
        &[Sound::Silence, Sound::Chord],
        |sound| { whole_right(alloc, *sound) },
    )?;
    print_right(rt, "albums cut", &CASES, |(sound, idle)| {
        cut_right(alloc, *sound, *idle)
    })
}
