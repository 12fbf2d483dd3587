// Where a conversion is turned down: document 01's places, tried from top to bottom. Converter, run and output are
// three callers' own: no record has them.
#![tactic(auto)]

ghost use Rattle.std.specs.Prelude.{◌≡◌, [], length, is_some, unwrap_or, option_copied};
ghost use Rattle.reference.specs.Frames.{run_of, frame_count};
ghost use Rattle.reference.specs.Refusals as table;
ghost use Rattle.reference.specs.Refusals.{decision, decide, held_places, if_present, lent_length, run_lengths, byte_lengths, convert_run_places, convert_frame_places, convert_places};

pub use converters::{held, opening};
use reference::{Converter, Limit, PcmError, Run};
use run_refusals::one;
pub use run_refusals::{all_samples, frame_count, input};

// From the run length on, with 32-bit output.
#[tactic(auto, using(converters::proofs::Steps::stops, converters::proofs::Steps::goes_on, crate::proofs::Steps::few_enough, crate::proofs::Steps::wrong_items, crate::proofs::Steps::right_length, converters::proofs::Steps::nothing), unfolding(reference::specs::Refusals::run_lengths, reference::specs::Output::all_samples, reference::specs::Output::channel_samples))]
fn item_lengths<'a>(conv: Converter, run: Run<'a>, out: &[i32]) -> Result<(), PcmError>
    requires { decide (held_places conv) ≡ table.accepted }
    ensures { decision result ≡ decide (run_lengths conv (run_of run.entry) out.now) }
{
    input(Limit::Rack, conv, run)?;
    let expected = all_samples(conv, run.frames);
    if out.len() != expected {
        return Err(PcmError::OutputLength(out.len(), expected));
    }
    Ok(())
}

// The list of per-frame counts, if one is lent.
#[tactic(auto, using(crate::proofs::Steps::wrong_counts, crate::proofs::Steps::right_length, converters::proofs::Steps::nothing), unfolding(reference::specs::Refusals::if_present))]
pub fn counts_length(conv: Converter, frames: &[u8], counts: Option<&[u64]>) -> Result<(), PcmError>
    requires { decide (held_places conv) ≡ table.accepted }
    ensures { decision result ≡ decide (if_present (is_some counts.entry) (lent_length 8 (length (unwrap_or (option_copied counts.entry) [])) (frame_count conv.channels frames.now))) }
{
    let Some(counts) = counts else { return Ok(()) };
    let expected = frame_count(conv, frames);
    if counts.len() != expected {
        return Err(PcmError::FrameCounts(counts.len(), expected));
    }
    Ok(())
}

// From the run length on, with byte output and the counts if they are lent.
#[tactic(auto, using(converters::proofs::Steps::stops, converters::proofs::Steps::goes_on, crate::proofs::Steps::few_enough, crate::proofs::Steps::wrong_bytes, crate::proofs::Steps::right_length), unfolding(reference::specs::Refusals::byte_lengths, reference::specs::Output::all_samples, reference::specs::Output::channel_samples))]
fn byte_lengths<'a>(
    whose: Limit,
    conv: Converter,
    run: Run<'a>,
    out: &[u8],
    counts: Option<&[u64]>,
) -> Result<(), PcmError>
    requires { decide (held_places conv) ≡ table.accepted }
    ensures { decision result ≡ decide (byte_lengths whose conv (run_of run.entry) out.now (is_some counts.entry) (unwrap_or (option_copied counts.entry) [])) }
{
    input(whose, conv, run)?;
    let expected = 3 * all_samples(conv, run.frames);
    if out.len() != expected {
        return Err(PcmError::OutputBytes(out.len(), expected));
    }
    counts_length(conv, run.frames, counts)
}

// All that `convert_run` tries.
#[tactic(auto, using(converters::proofs::Steps::stops, converters::proofs::Steps::goes_on), unfolding(reference::specs::Refusals::convert_run_places))]
pub fn run_call<'a>(conv: Converter, run: Run<'a>, out: &[i32]) -> Result<(), PcmError>
    ensures { decision result ≡ decide (convert_run_places conv (run_of run.entry) out.now) }
{
    held(conv)?;
    item_lengths(conv, run, out)
}

// All that `convert_frame` tries.
#[tactic(auto, using(converters::proofs::Steps::stops, converters::proofs::Steps::goes_on, converters::proofs::Steps::first_stops, converters::proofs::Steps::past_first), unfolding(reference::specs::Refusals::convert_frame_places))]
pub fn frame_call<'a>(conv: Converter, run: Run<'a>, out: &[i32]) -> Result<(), PcmError>
    ensures { decision result ≡ decide (convert_frame_places conv (run_of run.entry) out.now) }
{
    held(conv)?;
    one(conv, run.frames)?;
    item_lengths(conv, run, out)
}

// All that a call for bytes tries, the rack's or the desk's.
#[tactic(auto, using(converters::proofs::Steps::stops, converters::proofs::Steps::goes_on), unfolding(reference::specs::Refusals::convert_places))]
pub fn byte_call<'a>(
    whose: Limit,
    conv: Converter,
    run: Run<'a>,
    out: &[u8],
    counts: Option<&[u64]>,
) -> Result<(), PcmError>
    ensures { decision result ≡ decide (convert_places whose conv (run_of run.entry) out.now (is_some counts.entry) (unwrap_or (option_copied counts.entry) [])) }
{
    held(conv)?;
    byte_lengths(whose, conv, run, out, counts)
}
