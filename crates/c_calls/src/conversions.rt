// The conversions: one body for 32-bit samples, one for bytes.
ghost use Rattle.std.specs.Prelude.{true, false, []};
ghost use Rattle.reference.specs.Frames.{run_of};
ghost use Rattle.reference.specs.Promises.{SamplesPromise};
ghost use Rattle.c_converter.specs.inner.Blocks.{as_converter, as_input};
ghost use Rattle.c_stats.specs.Conversions.{results};
ghost use Rattle.c_calls.specs.Calls.{samples_places, SamplesCall, BytesCall};
ghost use Rattle.c_calls.specs.inner.Made.{BytesMade};

use c_converter::{Blocks, Input};
use c_stats::tell_conversion;
use codes::NOT_UNDERSTOOD;
use reference::{ConvertStats, Converter, PcmError, Run};

// Of a run, or of exactly one frame.
#[derive(Clone, Copy)]
pub enum ToSamples {
    Run,
    Frame,
}

// For the rack, for the listening desk, or as a WAV file.
#[derive(Clone, Copy)]
pub enum ToBytes {
    Rack,
    Desk,
    Wav,
}

#[tactic(auto, unfolding(crate::specs::Calls::samples_places))]
fn to_samples<'a>(
    kind: ToSamples,
    conv: Converter,
    run: Run<'a>,
    out: &mut [i32],
) -> Result<ConvertStats, PcmError>
    ensures { SamplesPromise (samples_places kind conv (run_of run.entry) out.old) conv (run_of run.entry) out.old out.new result }
{
    match kind {
        ToSamples::Run => scarletbook_pcm::convert_run(conv, run, out),
        ToSamples::Frame => scarletbook_pcm::convert_frame(conv, run, out),
    }
}

// 32-bit samples.
#[tactic(auto, using(codes::proofs::Calls::turned_away, codes::proofs::Calls::not_left, codes::proofs::Calls::not_right, codes::proofs::Known::none_known))]
pub fn convert_samples<'a>(
    kind: ToSamples,
    blocks: Blocks<'_>,
    input: Input<'a>,
    out: &mut [i32],
    stats: &mut [u64; 24],
    data: &mut [u64; 2],
    decibels: &mut [f64; 1],
) -> u8
    ensures { SamplesCall kind (as_converter blocks.entry) (as_input input.entry) out.old out.new (results stats.old «data».old decibels.old) (results stats.new «data».new decibels.new) result }
{
    let Some(conv) = blocks.converter() else {
        return NOT_UNDERSTOOD;
    };
    if input.presence >= 4 {
        return NOT_UNDERSTOOD;
    }
    let made = to_samples(kind, conv, input.run(), out);
    tell_conversion(made, stats, data, decibels)
}

fn counted<'a>(
    kind: ToBytes,
    conv: Converter,
    run: Run<'a>,
    out: &mut [u8],
    counts: &mut [u64],
) -> Result<ConvertStats, PcmError>
    ensures { BytesMade kind conv (run_of run.entry) true out.old counts.old out.new counts.new result }
{
    match kind {
        ToBytes::Rack => scarletbook_pcm::convert(conv, run, out, Some(counts)),
        ToBytes::Desk => scarletbook_pcm::convert_desk(conv, run, out, Some(counts)),
        ToBytes::Wav => wav::convert(conv, run, out, Some(counts)),
    }
}

fn uncounted<'a>(
    kind: ToBytes,
    conv: Converter,
    run: Run<'a>,
    out: &mut [u8],
) -> Result<ConvertStats, PcmError>
    ensures { BytesMade kind conv (run_of run.entry) false out.old [] out.new [] result }
{
    match kind {
        ToBytes::Rack => scarletbook_pcm::convert(conv, run, out, None),
        ToBytes::Desk => scarletbook_pcm::convert_desk(conv, run, out, None),
        ToBytes::Wav => wav::convert(conv, run, out, None),
    }
}

// Bytes, and the clips of each frame if the presence says that a list for them is there.
#[tactic(auto, using(codes::proofs::Calls::turned_away, codes::proofs::Calls::not_left, codes::proofs::Calls::not_right, codes::proofs::Known::none_known))]
pub fn convert_bytes<'a>(
    kind: ToBytes,
    blocks: Blocks<'_>,
    input: Input<'a>,
    out: &mut [u8],
    counts: &mut [u64],
    stats: &mut [u64; 24],
    data: &mut [u64; 2],
    decibels: &mut [f64; 1],
) -> u8
    ensures { BytesCall kind (as_converter blocks.entry) (as_input input.entry) out.old counts.old out.new
        counts.new (results stats.old «data».old decibels.old) (results stats.new «data».new decibels.new) result }
{
    let Some(conv) = blocks.converter() else {
        return NOT_UNDERSTOOD;
    };
    if input.presence >= 8 {
        return NOT_UNDERSTOOD;
    }
    let made = if input.presence / 4 == 1 {
        counted(kind, conv, input.run(), out, counts)
    } else {
        uncounted(kind, conv, input.run(), out)
    };
    tell_conversion(made, stats, data, decibels)
}
