// Converters: opened, and changed while they are open. Here is what they are turned down for, at the opening, as they
// are held, and where other settings are wanted: document 01's places, tried from top to bottom.
#![tactic(auto)]

ghost use Rattle.std.specs.Prelude.{◌≡◌, [], ◌∷◌};
ghost use Rattle.reference.specs.Settings as stored;
ghost use Rattle.reference.specs.Refusals as table;
ghost use Rattle.reference.specs.Changes as changes;
ghost use Rattle.reference.specs.Changes.{change_places};
ghost use Rattle.reference.specs.Refusals.{decision, decide, wanted_places, opening_places, numbers_place, held_places};

use reference::{Converter, Cutoff, Gain, PcmError, PcmRate, Settings};

mod calls;

pub use calls::{change, open};

#[tactic(auto, unfolding(reference::specs::Refusals::unsupported))]
fn unsupported(rate: PcmRate, cutoff: Cutoff) -> bool
    ensures { result ≡ table.unsupported rate cutoff }
{
    matches!((rate, cutoff), (PcmRate::Hz88200, Cutoff::Wide))
}

// Rate with cutoff, and gain: what opening and a change are asked for.
#[tactic(auto, unfolding(reference::specs::Refusals::decide))]
fn wanted(rate: PcmRate, cutoff: Cutoff, gain: Gain) -> Result<(), PcmError>
    ensures { decision result ≡ decide (wanted_places rate cutoff gain) }
{
    if unsupported(rate, cutoff) {
        return Err(PcmError::Unsupported(rate, cutoff));
    }
    if !gain::right_gain(gain) {
        return Err(PcmError::Gain(gain.db));
    }
    Ok(())
}

// All that opening tries.
#[tactic(auto, using(crate::proofs::Steps::no_channels, crate::proofs::Steps::many_channels, crate::proofs::Steps::wanted_next))]
pub fn opening(settings: Settings) -> Result<(), PcmError>
    ensures { decision result ≡ decide (opening_places settings) }
{
    let channels = settings.channels;
    if channels < 1 || channels > 6 {
        return Err(PcmError::Channels(channels));
    }
    wanted(settings.rate, settings.cutoff, settings.gain).and(label_taps::filter(settings.filter()))
}

// Whether the stored numbers are those of the settings.
#[tactic(auto, using(crate::proofs::Steps::wrong_samples, crate::proofs::Steps::wrong_reach, crate::proofs::Steps::all_true))]
fn true_numbers(conv: Converter) -> bool
    ensures { result ≡ stored.true_numbers conv }
{
    let right = conv.settings().converter();
    conv.samples_per_frame == right.samples_per_frame
        && conv.reach == right.reach
        && conv.frame_length == right.frame_length
}

// The stored numbers.
#[tactic(auto, unfolding(reference::specs::Refusals::decide))]
fn numbers(conv: Converter) -> Result<(), PcmError>
    ensures { decision result ≡ decide (numbers_place conv ∷ []) }
{
    if true_numbers(conv) {
        Ok(())
    } else {
        Err(PcmError::Stored)
    }
}

// What each conversion, and a change, tries first: the converter as it is held.
#[tactic(auto, using(crate::proofs::Steps::one_after), unfolding(reference::specs::Refusals::held_places))]
pub fn held(conv: Converter) -> Result<(), PcmError>
    ensures { decision result ≡ decide (held_places conv) }
{
    opening(conv.settings()).and(numbers(conv))
}

// All that a change tries: the converter as it is held, then what is wanted. Rate, cutoff and gain come one by one, as
// the public `change` has them, whose form the documents promise.
#[tactic(auto, using(crate::proofs::Steps::one_after), unfolding(reference::specs::Changes::change_places))]
pub fn changing(conv: Converter, rate: PcmRate, cutoff: Cutoff, gain: Gain) -> Result<(), PcmError>
    ensures { decision result ≡ decide (change_places conv (changes.change rate cutoff gain)) }
{
    held(conv).and(wanted(rate, cutoff, gain))
}
