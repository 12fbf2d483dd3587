// The calls with a converter, as C has them: gain, opening, a change. Where a number is not understood, a call answers
// 255 and writes nothing.
#![tactic(auto)]

ghost use Rattle.c_converter.specs.Blocks.{converter_lists};
ghost use Rattle.c_calls.specs.Calls.{c_wanted, GainCall, OpenCall, ChangeCall};

use c_converter::{Blocks, gain_of, tell_change, tell_gain, tell_opening};
use codes::{NOT_UNDERSTOOD, cutoff_of, rate_of};

mod conversions;

pub use conversions::{ToBytes, ToSamples, convert_bytes, convert_samples};

// The gain record of some decibels.
pub fn gain(db: f64, gain: &mut [f64; 2], decibels: &mut [f64; 1]) -> u8
    ensures { GainCall db gain.old gain.new decibels.new result }
{
    tell_gain(gain::from_db(db), gain, decibels)
}

// Whether a converter has these settings; the numbers that it stores.
#[tactic(auto, using(codes::proofs::Calls::turned_away, codes::proofs::Calls::not_left, codes::proofs::Calls::not_right, codes::proofs::Known::none_known))]
pub fn open(
    numbers: &mut [u64; 8],
    gain: &[f64; 2],
    taps: &[i32; 117],
    data: &mut [u64; 2],
    decibels: &mut [f64; 1],
) -> u8
    ensures { OpenCall (converter_lists numbers.old gain.now taps.now) numbers.new «data».old «data».new decibels.old decibels.new result }
{
    let asked = Blocks {
        numbers,
        gain,
        taps,
    };
    let Some(settings) = asked.settings() else {
        return NOT_UNDERSTOOD;
    };
    tell_opening(scarletbook_pcm::open(settings), numbers, data, decibels)
}

// Another rate, cutoff and gain for an open converter.
#[tactic(auto, using(codes::proofs::Calls::turned_away, codes::proofs::Calls::not_left, codes::proofs::Calls::not_right, codes::proofs::Known::none_known))]
pub fn change(
    numbers: &mut [u64; 8],
    gain: &mut [f64; 2],
    taps: &[i32; 117],
    rate: u64,
    cutoff: u64,
    wanted: &[f64; 2],
    data: &mut [u64; 2],
    decibels: &mut [f64; 1],
) -> u8
    ensures { ChangeCall (converter_lists numbers.old gain.old taps.now) (c_wanted rate cutoff wanted.now) numbers.new gain.new «data».old «data».new decibels.old decibels.new result }
{
    let asked = Blocks {
        numbers,
        gain,
        taps,
    };
    let Some(rate) = rate_of(rate) else {
        return NOT_UNDERSTOOD;
    };
    let Some(cutoff) = cutoff_of(cutoff) else {
        return NOT_UNDERSTOOD;
    };
    let Some(mut conv) = asked.converter() else {
        return NOT_UNDERSTOOD;
    };
    let made = scarletbook_pcm::change(&mut conv, rate, cutoff, gain_of(wanted));
    tell_change(made, conv, numbers, gain, data, decibels)
}
