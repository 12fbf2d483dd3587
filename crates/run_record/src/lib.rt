// The conversions of a run record, of samples and of bytes. None asks anything: a call that document 01's table turns
// down is refused, and all lent memory keeps its contents.
#![tactic(auto)]

ghost use Rattle.std.specs.Prelude.{true, false, [], is_some};
ghost use Rattle.reference.specs.Frames.{run_of};
ghost use Rattle.reference.specs.Promises.{ConvertRunPromise, ConvertFramePromise, BytesPromise, ConvertPromise, DeskPromise};
ghost use Rattle.run_record.specs.Calls.{listed, left};

use reference::{ConvertStats, Converter, Limit, PcmError, Run};

mod work;

// 32-bit samples of a run. An absent neighbour's slice is neither read nor measured.
#[tactic(auto, using(crate::proofs::Answers::run_accepted, crate::proofs::Answers::samples_promise, crate::proofs::Answers::samples_refused))]
pub fn convert_run<'a>(
    conv: Converter,
    run: Run<'a>,
    out: &mut [i32],
) -> Result<ConvertStats, PcmError>
    ensures { ConvertRunPromise conv (run_of run.entry) out.old out.new result }
{
    refusals::run_call(conv, run, out)?;
    Ok(work::converted(conv, run, out, &mut []))
}

// 32-bit samples of exactly one frame.
#[tactic(auto, using(crate::proofs::Answers::frame_accepted, crate::proofs::Answers::samples_promise, crate::proofs::Answers::samples_refused))]
pub fn convert_frame<'a>(
    conv: Converter,
    run: Run<'a>,
    out: &mut [i32],
) -> Result<ConvertStats, PcmError>
    ensures { ConvertFramePromise conv (run_of run.entry) out.old out.new result }
{
    refusals::frame_call(conv, run, out)?;
    Ok(work::converted(conv, run, out, &mut []))
}

// Bytes of a run of as many frames as the rack or the desk takes, and the clips of each frame.
// The calls below choose by their `Option`: passed on whole it would tell a proof nothing of its list.
#[tactic(auto, using(crate::proofs::Answers::lent_accepted, crate::proofs::Answers::lent_promise, crate::proofs::Answers::lent_refused))]
fn counted<'a>(
    whose: Limit,
    conv: Converter,
    run: Run<'a>,
    out: &mut [u8],
    counts: &mut [u64],
) -> Result<ConvertStats, PcmError>
    ensures { BytesPromise whose conv (run_of run.entry) true out.old counts.old out.new counts.new result }
{
    refusals::byte_call(whose, conv, run, out, Some(&*counts))?;
    Ok(work::converted(conv, run, out, counts))
}

// The same without the clips.
#[tactic(auto, using(crate::proofs::Answers::unlent_accepted, crate::proofs::Answers::unlent_promise, crate::proofs::Answers::unlent_refused))]
fn uncounted<'a>(
    whose: Limit,
    conv: Converter,
    run: Run<'a>,
    out: &mut [u8],
) -> Result<ConvertStats, PcmError>
    ensures { BytesPromise whose conv (run_of run.entry) false out.old [] out.new [] result }
{
    refusals::byte_call(whose, conv, run, out, None)?;
    Ok(work::converted(conv, run, out, &mut []))
}

// Samples of a run, three bytes each, and the clips of each frame if a list for them is lent.
pub fn convert<'a>(
    conv: Converter,
    run: Run<'a>,
    out: &mut [u8],
    counts: Option<&mut [u64]>,
) -> Result<ConvertStats, PcmError>
    ensures { ConvertPromise conv (run_of run.entry) (is_some counts.entry) out.old (listed counts.entry) out.new (left counts.exit) result }
{
    match counts {
        Some(counts) => counted(Limit::Rack, conv, run, out, counts),
        None => uncounted(Limit::Rack, conv, run, out),
    }
}

// For the listening desk, which takes at most 8 frames.
pub fn convert_desk<'a>(
    conv: Converter,
    run: Run<'a>,
    out: &mut [u8],
    counts: Option<&mut [u64]>,
) -> Result<ConvertStats, PcmError>
    ensures { DeskPromise conv (run_of run.entry) (is_some counts.entry) out.old (listed counts.entry) out.new (left counts.exit) result }
{
    match counts {
        Some(counts) => counted(Limit::Desk, conv, run, out, counts),
        None => uncounted(Limit::Desk, conv, run, out),
    }
}
