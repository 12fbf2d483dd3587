// The converter's calls. None asks anything: a call that document 01's table turns down is refused, and all lent memory
// keeps its contents.
#![tactic(auto)]

ghost use Rattle.std.specs.Prelude.{◌≡◌, is_some};
ghost use Rattle.reference.specs.Frames.{run, run_of};
ghost use Rattle.reference.specs.Output as output;
ghost use Rattle.reference.specs.Promises.{ConvertRunPromise, ConvertFramePromise, ConvertPromise, DeskPromise, PackPromise};
ghost use Rattle.run_record.specs.Calls.{listed, left};

pub use converters::{change, open};
pub use reference::Run;
use reference::{ConvertStats, Converter, PcmError, PcmRate};

// The calls over the run record; the functions `.._parts` below do without it.
pub use run_record::{convert, convert_desk, convert_frame, convert_run};

// Samples of one channel in a frame.
pub fn samples_per_frame(rate: PcmRate) -> usize
    ensures { result ≡ output.samples_per_frame rate }
{
    rate.samples_per_frame()
}

// Bytes of each channel before and after a stretch of frames that its samples may depend on: the number that the
// converter stores.
pub fn context_bytes(conv: Converter) -> usize
    ensures { result ≡ conv.reach }
{
    conv.reach
}

// The four calls of the customer, each with its fields one by one, a flag beside each neighbour, as they were asked
// for.

// The record of these fields.
fn record<'a>(
    has_before: bool,
    before: &'a [u8],
    frames: &'a [u8],
    has_after: bool,
    after: &'a [u8],
) -> Run<'a>
    ensures { run_of result ≡ run has_before before.now frames.now has_after after.now }
{
    Run {
        has_before,
        before,
        frames,
        has_after,
        after,
    }
}

// 32-bit samples of a run. An absent neighbour's slice is neither read nor measured.
pub fn convert_run_parts<'a>(
    conv: Converter,
    has_before: bool,
    before: &'a [u8],
    frames: &'a [u8],
    has_after: bool,
    after: &'a [u8],
    out: &mut [i32],
) -> Result<ConvertStats, PcmError>
    ensures { ConvertRunPromise conv (run has_before before.now frames.now has_after after.now) out.old out.new result }
{
    let run = record(has_before, before, frames, has_after, after);
    convert_run(conv, run, out)
}

// 32-bit samples of exactly one frame. An absent neighbour's slice is neither read nor measured.
pub fn convert_frame_parts<'a>(
    conv: Converter,
    has_before: bool,
    before: &'a [u8],
    frames: &'a [u8],
    has_after: bool,
    after: &'a [u8],
    out: &mut [i32],
) -> Result<ConvertStats, PcmError>
    ensures { ConvertFramePromise conv (run has_before before.now frames.now has_after after.now) out.old out.new result }
{
    let run = record(has_before, before, frames, has_after, after);
    convert_frame(conv, run, out)
}

// Samples of a run, three bytes each, and the clips of each frame if a list for them is lent.
// This call and the next choose by their `Option`: passed on whole it would tell a proof nothing of its list.
pub fn convert_parts<'a>(
    conv: Converter,
    has_before: bool,
    before: &'a [u8],
    frames: &'a [u8],
    has_after: bool,
    after: &'a [u8],
    out: &mut [u8],
    counts: Option<&mut [u64]>,
) -> Result<ConvertStats, PcmError>
    ensures { ConvertPromise conv (run has_before before.now frames.now has_after after.now) (is_some counts.entry) out.old (listed counts.entry) out.new (left counts.exit) result }
{
    let run = record(has_before, before, frames, has_after, after);
    match counts {
        Some(counts) => convert(conv, run, out, Some(counts)),
        None => convert(conv, run, out, None),
    }
}

// For the listening desk, which takes at most 8 frames.
pub fn convert_desk_parts<'a>(
    conv: Converter,
    has_before: bool,
    before: &'a [u8],
    frames: &'a [u8],
    has_after: bool,
    after: &'a [u8],
    out: &mut [u8],
    counts: Option<&mut [u64]>,
) -> Result<ConvertStats, PcmError>
    ensures { DeskPromise conv (run has_before before.now frames.now has_after after.now) (is_some counts.entry) out.old (listed counts.entry) out.new (left counts.exit) result }
{
    let run = record(has_before, before, frames, has_after, after);
    match counts {
        Some(counts) => convert_desk(conv, run, out, Some(counts)),
        None => convert_desk(conv, run, out, None),
    }
}

// 32-bit samples as three bytes each, their low 24 bits, least first: as many as there are bytes for. Later bytes are
// kept.
pub fn pack_s24le(samples: &[i32], bytes: &mut [u8])
    ensures { PackPromise samples.now bytes.old bytes.new }
{
    output::pack(samples, bytes)
}
