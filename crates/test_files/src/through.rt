// Four stereo frames converted in one run; and frame by frame out of a DSF file that was written of them, each with the
// frames next to it in the file. The samples are the same.
use reference::{Converter, Run};
use std::io;
use test_support::{gain, print_right, settings};

// Bytes of a frame, and its samples.
const FRAME: usize = 9408;

const SAMPLES: usize = 2352;

// Standard at 88,200 Hz, two channels, 0 dB.
fn converter() -> Converter {
    settings(0, 2, gain(0, 0x3ff0_0000_0000_0000), None).converter()
}

// Frame k of the file, if there is one.
fn taken(file: &[u8], k: u64) -> Option<[u8; FRAME]> {
    let mut frame = [0u8; FRAME];
    let answer = dsf_frames::frame(file, k, &mut frame);
    answer.is_ok().then_some(frame)
}

// The samples of a frame of the file; none where it is not there, or is refused.
fn converted(file: &[u8], k: u64) -> Option<[i32; SAMPLES]> {
    let before = k.checked_sub(1).and_then(|k| taken(file, k));
    let after = k.checked_add(1).and_then(|k| taken(file, k));
    let frame = taken(file, k)?;
    let first = before.unwrap_or(frame);
    let last = after.unwrap_or(frame);
    let run = Run {
        has_before: before.is_some(),
        before: &first,
        frames: &frame,
        has_after: after.is_some(),
        after: &last,
    };
    let mut out = [0i32; SAMPLES];
    let done = scarletbook_pcm::convert_run(converter(), run, &mut out);
    done.is_ok().then_some(out)
}

fn is_through(file: &[u8], whole: &[i32], k: u8) -> bool {
    let at = usize::from(k) * SAMPLES;
    match converted(file, u64::from(k)) {
        Some(samples) => whole.get(at..).is_some_and(|s| s.starts_with(&samples)),
        None => false,
    }
}

pub fn all(rt: &impl Print) -> io::Result<()> {
    let mut frames = [0u8; 4 * FRAME];
    let mut whole = [0i32; 4 * SAMPLES];
    let mut file = [0u8; 41052];
    test_support::fill(9, &mut frames);
    let run = Run {
        has_before: false,
        before: &[],
        frames: &frames,
        has_after: false,
        after: &[],
    };
    let done = scarletbook_pcm::convert_run(converter(), run, &mut whole);
    let written = dsf_write::write(2, &frames, &mut file);
    print_right(rt, "frames converted out of a file", &[0u8, 1, 2, 3], |k| {
        Ok(done.is_ok() && written.is_ok() && is_through(&file, &whole, *k))
    })
}
