// Numbers for C: rates, cutoffs, channels and flags read, each as `None` where it is unknown, and a call's answer told
// as a number with its data.
#![tactic(auto)]

ghost use Rattle.std.specs.Prelude.{◌≡◌};
ghost use Rattle.reference.specs.Refusals.{error_decision, decision};
ghost use Rattle.codes.specs.Codes as codes;
ghost use Rattle.codes.specs.inner.Codes.{if_known, report};
ghost use Rattle.codes.specs.Told.{ToldData, ToldDecibels, ToldWhole};

use reference::{Cutoff, PcmError, PcmRate};

// What a call answers whose arguments are not understood; it writes nothing then.
pub const NOT_UNDERSTOOD: u8 = 255;

#[tactic(auto, unfolding(reference::specs::inner::Codes::rate_from, crate::specs::inner::Codes::if_known, crate::specs::Codes::rate_of))]
pub fn rate_of(n: u64) -> Option<PcmRate>
    ensures { result ≡ if_known (codes.known_rate n) (codes.rate_of n) }
{
    let n = u32::try_from(n).ok()?;
    PcmRate::try_from(n).ok()
}

#[tactic(auto, unfolding(reference::specs::inner::Codes::cutoff_from, crate::specs::inner::Codes::if_known, crate::specs::Codes::cutoff_of))]
pub fn cutoff_of(n: u64) -> Option<Cutoff>
    ensures { result ≡ if_known (codes.known_cutoff n) (codes.cutoff_of n) }
{
    let n = u8::try_from(n).ok()?;
    Cutoff::try_from(n).ok()
}

// Channels are a byte.
#[tactic(auto, unfolding(crate::specs::inner::Codes::if_known))]
pub fn channels_of(n: u64) -> Option<u8>
    ensures { result ≡ if_known (codes.known_channels n) n }
{
    u8::try_from(n).ok()
}

// A flag is 0 or 1.
#[tactic(auto, unfolding(crate::specs::inner::Codes::if_known))]
pub fn flag_of(n: u64) -> Option<bool>
    ensures { result ≡ if_known (codes.known_flag n) (codes.flag n) }
{
    match n {
        0 => Some(false),
        1 => Some(true),
        _ => None,
    }
}

// A decision's number, data and decibels.
#[derive(Clone, Copy)]
pub struct Answer {
    pub number: u8,
    pub data: [u64; 2],
    pub decibels: f64,
}

// A refusal's first two data.
fn data(e: PcmError) -> [u64; 2]
    ensures { result ≡ codes.data_numbers (error_decision e) }
{
    match e {
        PcmError::Channels(n) => [n as u64, 0],
        PcmError::Unsupported(rate, cutoff) => [u64::from(rate), u64::from(cutoff)],
        PcmError::InputLength(n, kind) => [n as u64, kind.number()],
        PcmError::Frames(n) | PcmError::Before(n) | PcmError::After(n) => [n as u64, 0],
        PcmError::OutputLength(n, expected)
        | PcmError::OutputBytes(n, expected)
        | PcmError::FrameCounts(n, expected) => [n as u64, expected as u64],
        _ => [0, 0],
    }
}

// The decibels that it carries, else 0.0.
#[tactic(auto, using(crate::proofs::Known::zero_is))]
fn decibels(e: PcmError) -> f64
    ensures { result ≡ codes.carried_decibels (error_decision e) }
{
    match e {
        PcmError::Gain(db) => db,
        _ => 0.0,
    }
}

impl From<PcmError> for Answer {
    ghost from_gives = { λ e made. made ≡ report (error_decision e) };

    fn from(e: PcmError) -> Answer {
        Answer {
            number: e.number() as u8,
            data: data(e),
            decibels: decibels(e),
        }
    }
}

impl Answer {
    // Of an answer.
    #[tactic(auto, using(crate::proofs::Known::zero_is))]
    pub fn of<T>(answer: &Result<T, PcmError>) -> Self
        ensures { result ≡ report (decision answer.now) }
    {
        match answer {
            Ok(_) => Answer {
                number: 0,
                data: [0, 0],
                decibels: 0.0,
            },
            Err(e) => Answer::from(*e),
        }
    }
}

// An answer's number is answered, its decibels written.
pub fn tell_decibels<T>(answer: &Result<T, PcmError>, decibels: &mut [f64; 1]) -> u8
    ensures { ToldDecibels (decision answer.now) result decibels.new }
{
    let report = Answer::of(answer);
    *decibels = [report.decibels];
    report.number
}

// An answer's number is answered, its data written.
pub fn tell_data<T>(answer: &Result<T, PcmError>, data: &mut [u64; 2]) -> u8
    ensures { ToldData (decision answer.now) result «data».new }
{
    let report = Answer::of(answer);
    let numbers = report.data;
    *data = numbers;
    report.number
}

// All three.
pub fn tell<T>(answer: &Result<T, PcmError>, data: &mut [u64; 2], decibels: &mut [f64; 1]) -> u8
    ensures { ToldWhole (decision answer.now) result «data».new decibels.new }
{
    *decibels = [Answer::of(answer).decibels];
    tell_data(answer, data)
}
