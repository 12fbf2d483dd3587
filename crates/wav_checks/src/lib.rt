// Where a WAV file from a run is turned down: `convert`'s places, with a header in the output, then 12.
#![tactic(auto)]

ghost use Rattle.std.specs.Prelude.{◌≡◌, [], ◌∷◌, is_some, unwrap_or, option_copied};
ghost use Rattle.reference.specs.Frames.{run_of};
ghost use Rattle.reference.specs.Refusals.{decision, decide};
ghost use Rattle.wav_checks.specs.Places.{too_large, wav_places};

use reference::{Converter, Limit, PcmError, Run};

// Channels and data that a header can tell.
#[tactic(auto, using(reference::proofs::Refusals::at_first, reference::proofs::Refusals::at_next, reference::proofs::Refusals::at_end), unfolding(crate::specs::Places::too_large))]
pub fn told(channels: u8, n: usize) -> Result<(), PcmError>
    ensures { decision result ≡ decide (too_large channels n ∷ []) }
{
    if channels > 2 || n > 4294967259 {
        return Err(PcmError::NotWav);
    }
    Ok(())
}

// All that the call tries.
#[tactic(auto, using(refusals::proofs::Steps::stops, refusals::proofs::Steps::few_enough), unfolding(crate::specs::Places::wav_places))]
pub fn call<'a>(
    conv: Converter,
    run: Run<'a>,
    out: &[u8],
    counts: Option<&[u64]>,
) -> Result<(), PcmError>
    ensures { decision result ≡ decide (wav_places conv (run_of run.entry) out.now (is_some counts.entry) (unwrap_or (option_copied counts.entry) [])) }
{
    refusals::held(conv)?;
    refusals::input(Limit::Rack, conv, run)?;
    let data = 3 * refusals::all_samples(conv, run.frames);
    let expected = 44 + data;
    if out.len() != expected {
        return Err(PcmError::OutputBytes(out.len(), expected));
    }
    refusals::counts_length(conv, run.frames, counts)?;
    told(conv.channels, data)
}
