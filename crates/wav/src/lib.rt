// A WAV file from a run: what `convert` writes, behind the header. The calls ask nothing.
#![tactic(auto)]

ghost use Rattle.std.specs.Prelude.{◌≡◌, true, false, [], ◌++◌, ◌-◌, length, drop, is_some, unwrap_or, option_copied, OnOk, OnErr};
ghost use Rattle.reference.specs.Codes.{hertz};
ghost use Rattle.reference.specs.Frames.{run, run_of};
ghost use Rattle.reference.specs.Refusals.{decision, decide};
ghost use Rattle.run_record.specs.Calls.{listed, left};
ghost use Rattle.wav_header.specs.Header.{header};
ghost use Rattle.wav_checks.specs.Places.{wav_places};
ghost use Rattle.wav.specs.Promises.{WavPromise};

use reference::{ConvertStats, Converter, PcmError, Run};

mod record;

pub use record::convert;

// What a file from a run is turned down for; if for nothing, its header is put.
#[tactic(auto, using(crate::proofs::Converting::fits_header))]
fn begun<'a>(
    conv: Converter,
    run: Run<'a>,
    out: &mut [u8],
    counts: Option<&[u64]>,
) -> Result<(), PcmError>
    ensures decided { decision result ≡ decide (wav_places conv (run_of run.entry) out.old (is_some counts.entry) (unwrap_or (option_copied counts.entry) [])) }
    ensures headed { OnOk result (out.new ≡ header (hertz conv.rate) conv.channels (length out.old - 44) ++ drop 44 out.old) }
    ensures kept { OnErr result (out.new ≡ out.old) }
{
    wav_checks::call(conv, run, out, counts)?;
    let n = out.len() - 44;
    wav_format::put_header(conv.rate, conv.channels, n, out);
    Ok(())
}

// A file from a run, and the clips of each frame.
#[tactic(auto, using(crate::proofs::Converting::refused_call, crate::proofs::Converting::mid_long))]
fn counted<'a>(
    conv: Converter,
    run: Run<'a>,
    out: &mut [u8],
    counts: &mut [u64],
) -> Result<ConvertStats, PcmError>
    ensures { WavPromise conv (run_of run.entry) true out.old counts.old out.new counts.new result }
{
    begun(conv, run, out, Some(&*counts))?;
    scarletbook_pcm::convert(conv, run, &mut out[44..], Some(counts))
}

// The same without the clips.
#[tactic(auto, using(crate::proofs::Converting::refused_call, crate::proofs::Converting::mid_long))]
fn uncounted<'a>(conv: Converter, run: Run<'a>, out: &mut [u8]) -> Result<ConvertStats, PcmError>
    ensures { WavPromise conv (run_of run.entry) false out.old [] out.new [] result }
{
    begun(conv, run, out, None)?;
    scarletbook_pcm::convert(conv, run, &mut out[44..], None)
}

// A file from a run, its fields one by one, as the customer's `convert` has them.
pub fn convert_parts<'a>(
    conv: Converter,
    has_before: bool,
    before: &'a [u8],
    frames: &'a [u8],
    has_after: bool,
    after: &'a [u8],
    out: &mut [u8],
    counts: Option<&mut [u64]>,
) -> Result<ConvertStats, PcmError>
    ensures { WavPromise conv (run has_before before.now frames.now has_after after.now) (is_some counts.entry) out.old (listed counts.entry) out.new (left counts.exit) result }
{
    let run = Run {
        has_before,
        before,
        frames,
        has_after,
        after,
    };
    match counts {
        Some(counts) => counted(conv, run, out, counts),
        None => uncounted(conv, run, out),
    }
}
