// What a run is turned down for: its length, its neighbours'. Each function that asks for an accepted converter reads
// its stored numbers. It asks by one clause: a record with that fact would be made by each caller from `held`'s answer
// and opened here for its fields.
#![tactic(auto)]

ghost use Rattle.std.specs.Prelude.{◌≡◌, [], ◌∷◌, ◌*◌, ◌≤◌, option_copied};
ghost use Rattle.reference.specs.Frames.{run_of, frame_count};
ghost use Rattle.reference.specs.Output.{samples_per_frame};
ghost use Rattle.reference.specs.Refusals as table;
ghost use Rattle.run_refusals.specs.inner.Lengths as lengths;
ghost use Rattle.reference.specs.Refusals.{decision, decide, held_places, one_frame, too_many, input_places};

use reference::{Converter, Length, Limit, MOST_FRAMES, PcmError, Run};

// `convert_frame`'s run.
#[tactic(auto, using(crate::proofs::Steps::not_one, crate::proofs::Steps::is_one))]
pub fn one(conv: Converter, frames: &[u8]) -> Result<(), PcmError>
    requires { decide (held_places conv) ≡ table.accepted }
    ensures { decision result ≡ decide (one_frame conv.channels frames.now ∷ []) }
{
    if frames.len() == conv.frame_length {
        Ok(())
    } else {
        Err(PcmError::InputLength(frames.len(), Length::OneFrame))
    }
}

// Frames of the longest run at the listening desk.
const DESK_FRAMES: usize = 8;

// No more frames than the call takes.
#[tactic(auto, using(crate::proofs::Steps::over_rack, crate::proofs::Steps::over_desk, crate::proofs::Steps::within_rack, crate::proofs::Steps::within_desk))]
fn few(whose: Limit, count: usize) -> Result<(), PcmError>
    ensures { decision result ≡ decide (too_many whose count ∷ []) }
{
    match whose {
        Limit::Rack if count > MOST_FRAMES => Err(PcmError::Frames(count)),
        Limit::Desk if count > DESK_FRAMES => Err(PcmError::Desk),
        _ => Ok(()),
    }
}

// The length of a neighbour that is there, and is not as long as a frame.
#[tactic(auto, unfolding(crate::specs::inner::Lengths::wrong_length))]
fn wrong_length(neighbour: Option<&[u8]>, size: usize) -> Option<usize>
    ensures { result ≡ lengths.wrong_length size (option_copied neighbour.entry) }
{
    let n = neighbour?.len();
    if n == size { None } else { Some(n) }
}

// Run length, before, after.
#[tactic(auto, using(crate::proofs::Inputs::some_size, crate::proofs::Inputs::part_frame, crate::proofs::Inputs::too_long, crate::proofs::Inputs::right_input))]
pub fn input<'a>(whose: Limit, conv: Converter, run: Run<'a>) -> Result<(), PcmError>
    requires { decide (held_places conv) ≡ table.accepted }
    ensures { decision result ≡ decide (input_places whose conv (run_of run.entry)) }
{
    let size = conv.frame_length;
    let n = run.frames.len();
    if n % size != 0 {
        return Err(PcmError::InputLength(n, Length::WholeFrames));
    }
    few(whose, n / size)?;
    if let Some(b) = wrong_length(run.frame_before(), size) {
        return Err(PcmError::Before(b));
    }
    if let Some(a) = wrong_length(run.frame_after(), size) {
        return Err(PcmError::After(a));
    }
    Ok(())
}

// Whole frames of a run.
#[tactic(auto, using(crate::proofs::Inputs::some_size, reference::proofs::Refusals::stored_count))]
pub fn frame_count(conv: Converter, frames: &[u8]) -> usize
    requires { decide (held_places conv) ≡ table.accepted }
    ensures { result ≡ frame_count conv.channels frames.now }
{
    frames.len() / conv.frame_length
}

// Samples of the run over all channels.
pub fn all_samples(conv: Converter, frames: &[u8]) -> usize
    requires conv_value { decide (held_places conv) ≡ table.accepted }
    requires frames_bound { frame_count conv.channels frames.now ≤ 540000 }
    ensures { (result ≡ frame_count conv.channels frames.now * samples_per_frame conv.rate * conv.channels) × (result ≤ 15240960000) }
{
    frame_count(conv, frames) * conv.samples_per_frame * (conv.channels as usize)
}
