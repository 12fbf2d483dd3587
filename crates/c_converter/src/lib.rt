// A converter and a run as C holds them, read, and what becomes of a converter written: lists of fixed length, each one
// pointer in C.
#![tactic(auto)]

ghost use Rattle.std.specs.Prelude.{◌≡◌};
ghost use Rattle.reference.specs.Frames as frames;
ghost use Rattle.reference.specs.Refusals.{decision};
ghost use Rattle.reference.specs.Promises.{by_decision};
ghost use Rattle.codes.specs.inner.Codes.{if_known};
ghost use Rattle.codes.specs.Told.{if_ok, ToldDecibels, ToldWhole};
ghost use Rattle.c_converter.specs.Blocks as blocks;
ghost use Rattle.c_converter.specs.Blocks.{known_numbers, settings_of, held_converter, with_stored, with_changed, gain_floats};
ghost use Rattle.c_converter.specs.inner.Blocks.{as_converter, as_input};

use codes::{channels_of, cutoff_of, flag_of, rate_of, tell, tell_decibels};
use reference::{Converter, Filter, Gain, PcmError, Run, Settings};

// A gain record from decibels and factor.
pub fn gain_of(gain: &[f64; 2]) -> Gain
    ensures { result ≡ blocks.gain_of gain.now }
{
    Gain {
        db: gain[0],
        linear: gain[1],
    }
}

// A converter's lists. The taps are copied whole: where no filter is given they are read and not used.
#[derive(Clone, Copy)]
pub struct Blocks<'a> {
    pub numbers: &'a [u64; 8],
    pub gain: &'a [f64; 2],
    pub taps: &'a [i32; 117],
}

impl Blocks<'_> {
    // The settings that known numbers stand for.
    #[tactic(auto, using(codes::proofs::Known::some_known, codes::proofs::Known::none_known), unfolding(crate::specs::Blocks::settings_of))]
    pub fn settings(self) -> Option<Settings>
        ensures { result ≡ if_known (known_numbers self.entry.numbers.now) (settings_of (as_converter self.entry)) }
    {
        let n = self.numbers;
        let taps = *self.taps;
        let filter = Filter {
            taps,
            count: n[4] as usize,
        };
        Some(Settings {
            rate: rate_of(n[0])?,
            cutoff: cutoff_of(n[1])?,
            channels: channels_of(n[2])?,
            gain: gain_of(self.gain),
            filter: flag_of(n[3])?.then_some(filter),
        })
    }

    // The converter that they stand for, its stored numbers as they are given.
    #[tactic(auto, using(codes::proofs::Known::some_known, codes::proofs::Known::none_known), unfolding(crate::specs::Blocks::held_converter))]
    pub fn converter(self) -> Option<Converter>
        ensures { result ≡ if_known (known_numbers self.entry.numbers.now) (held_converter (as_converter self.entry)) }
    {
        let s = self.settings()?;
        let n = self.numbers;
        Some(Converter {
            rate: s.rate,
            cutoff: s.cutoff,
            channels: s.channels,
            gain: s.gain,
            filter: s.filter(),
            samples_per_frame: n[5] as usize,
            reach: n[6] as usize,
            frame_length: n[7] as usize,
        })
    }
}

// A run, and a number that says which neighbours there are.
#[derive(Clone, Copy)]
pub struct Input<'a> {
    pub presence: u8,
    pub before: &'a [u8],
    pub frames: &'a [u8],
    pub after: &'a [u8],
}

impl<'a> Input<'a> {
    // The run.
    pub fn run(self) -> Run<'a>
        ensures { frames.run_of result ≡ blocks.input_run (as_input self.entry) }
    {
        Run {
            has_before: self.presence % 2 == 1,
            before: self.before,
            frames: self.frames,
            has_after: self.presence / 2 % 2 == 1,
            after: self.after,
        }
    }
}

// A gain's number is answered, its decibels written, and its record where it was made.
pub fn tell_gain(made: Result<Gain, PcmError>, gain: &mut [f64; 2], decibels: &mut [f64; 1]) -> u8
    ensures told { ToldDecibels (decision made) result decibels.new }
    ensures gain_after { gain.new ≡ if_ok gain_floats made gain.old }
{
    if let Ok(g) = made {
        *gain = [g.db, g.linear];
    }
    tell_decibels(&made, decibels)
}

// The numbers that a converter stores.
fn put_stored(conv: Converter, numbers: &mut [u64; 8])
    ensures { numbers.new ≡ with_stored conv numbers.old }
{
    numbers[5] = conv.samples_per_frame as u64;
    numbers[6] = conv.reach as u64;
    numbers[7] = conv.frame_length as u64;
}

// An opening's decision is told, and the numbers that its converter stores are written if it was accepted.
pub fn tell_opening(
    made: Result<Converter, PcmError>,
    numbers: &mut [u64; 8],
    data: &mut [u64; 2],
    decibels: &mut [f64; 1],
) -> u8
    ensures told_whole { ToldWhole (decision made) result «data».new decibels.new }
    ensures numbers_after { numbers.new ≡ if_ok (λ conv. with_stored conv numbers.old) made numbers.old }
{
    if let Ok(conv) = made {
        put_stored(conv, numbers);
    }
    tell(&made, data, decibels)
}

// A change's decision is told, and the converter held then is written if it was accepted.
#[tactic(auto, unfolding(reference::specs::Promises::by_decision))]
pub fn tell_change(
    made: Result<(), PcmError>,
    held: Converter,
    numbers: &mut [u64; 8],
    gain: &mut [f64; 2],
    data: &mut [u64; 2],
    decibels: &mut [f64; 1],
) -> u8
    ensures told_whole { ToldWhole (decision made) result «data».new decibels.new }
    ensures numbers_after { numbers.new ≡ if_ok (λ u. with_changed held numbers.old) made numbers.old }
    ensures gain_after { gain.new ≡ if_ok (λ u. gain_floats held.gain) made gain.old }
{
    if made.is_ok() {
        numbers[0] = u64::from(held.rate);
        numbers[1] = u64::from(held.cutoff);
        put_stored(held, numbers);
        *gain = [held.gain.db, held.gain.linear];
    }
    tell(&made, data, decibels)
}
