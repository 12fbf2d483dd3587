// Frames of an album converted, with those next to them.
ghost use Rattle.tracks_step.specs.inner.Slices.{sliced, SliceArgs, Converting};

use reference::{ConvertStats, Converter, FRAME_BYTES, PcmError, Run};

// So many frames from `first` on, out of those of the album from the one before to the one after, where they are there.
pub fn convert_piece(
    conv: Converter,
    first: u64,
    count: u64,
    frames: &[u8],
    out: &mut [u8],
) -> Result<ConvertStats, PcmError>
    requires { SliceArgs conv first count frames.now out.old }
    ensures { Converting conv (sliced conv.channels first count frames.now) out.new result }
{
    let size = FRAME_BYTES * conv.channels as usize;
    let start = first.min(1) as usize * size;
    let end = start + count as usize * size;
    let run = Run {
        has_before: 0 < first,
        before: &frames[..start],
        frames: &frames[start..end],
        has_after: end < frames.len(),
        after: &frames[end..],
    };
    scarletbook_pcm::convert(conv, run, out, None)
}
