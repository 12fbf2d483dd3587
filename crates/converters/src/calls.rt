// The calls that make a converter and change it.
ghost use Rattle.std.specs.Prelude.{◌≡◌};
ghost use Rattle.reference.specs.Promises.{OpeningPromise};
ghost use Rattle.reference.specs.Settings.{converter_of, held_settings};
ghost use Rattle.reference.specs.Changes as changes;
ghost use Rattle.reference.specs.Changes.{with_wanted, ChangePromise};

use crate::{changing, opening};
use reference::{Converter, Cutoff, Gain, PcmError, PcmRate, Settings};

#[tactic(auto, using(crate::proofs::Opened::opened, crate::proofs::Opened::not_opened))]
pub fn open(settings: Settings) -> Result<Converter, PcmError>
    ensures { OpeningPromise settings result }
{
    opening(settings)?;
    Ok(settings.converter())
}

// What opening gives for the wanted settings, the held channels and the held filter. Rate, cutoff and gain come one by
// one, as the public call has them, whose form the documents promise.
#[tactic(auto, unfolding(reference::specs::Changes::with_wanted))]
fn wanted(conv: Converter, rate: PcmRate, cutoff: Cutoff, gain: Gain) -> Converter
    ensures { result ≡ converter_of (with_wanted (held_settings conv) (changes.change rate cutoff gain)) }
{
    let held = conv.settings();
    let settings = Settings {
        rate,
        cutoff,
        gain,
        ..held
    };
    settings.converter()
}

// Other rate, cutoff and gain for an open converter. A refused change leaves the record as held.
#[tactic(auto, using(crate::proofs::Changes::changed_promise, crate::proofs::Changes::kept_promise))]
pub fn change(
    conv: &mut Converter,
    rate: PcmRate,
    cutoff: Cutoff,
    gain: Gain,
) -> Result<(), PcmError>
    ensures { ChangePromise conv.old (changes.change rate cutoff gain) conv.new result }
{
    changing(*conv, rate, cutoff, gain)?;
    *conv = wanted(*conv, rate, cutoff, gain);
    Ok(())
}
