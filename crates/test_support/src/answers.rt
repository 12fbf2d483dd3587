// What a call answers, by numbers.
ghost use Rattle.std.specs.Prelude.{◌≡◌, [], ◌∷◌, ◌&&◌, eqb};
ghost use Rattle.reference.specs.Refusals.{decision, error_decision};
ghost use Rattle.reference.specs.Promises.{stats_told};
ghost use Rattle.test_support.specs.inner.Answers.{told, clips_of};

use crate::{Converted, bits};
use reference::{ConvertStats, PcmError};

// A refusal's number and data as the stored rows have them: number 0, with zeros behind it, is no refusal. An `Option`
// would say so too, but each row has the three numbers, and what a call answers is only compared with them.
#[derive(Clone, Copy, PartialEq, Eq, Debug)]
pub struct Told {
    pub number: u64,
    pub first: u64,
    pub second: u64,
}

impl Told {
    pub const ACCEPTED: Told = Told {
        number: 0,
        first: 0,
        second: 0,
    };

    pub fn is_accepted(&self) -> bool
        ensures { result ≡ eqb self.now.number 0 }
    {
        self.number == 0
    }
}

pub fn refusal(number: u64, first: u64, second: u64) -> Told
    ensures { result ≡ record { number = number; first = first; second = second } }
{
    Told {
        number,
        first,
        second,
    }
}

// A refusal's number and data; of a gain the bits of its decibels.
fn error(e: PcmError) -> Told
    ensures { result ≡ told (error_decision e) }
{
    let report = codes::Answer::from(e);
    let number = u64::from(report.number);
    match e {
        PcmError::Gain(db) => refusal(number, bits(db), 0),
        _ => refusal(number, report.data[0], report.data[1]),
    }
}

// The number and data of what a call answers.
pub fn answered<T: Drop>(made: Result<T, PcmError>) -> Told
    ensures { result ≡ told (decision made) }
{
    match made {
        Ok(_) => Told::ACCEPTED,
        Err(e) => error(e),
    }
}

// A conversion's statistics; where it is refused, those of no samples.
#[tactic(auto, unfolding(reference::specs::Promises::stats_told))]
pub fn stats(done: Converted) -> ConvertStats
    ensures { result ≡ stats_told done }
{
    done.unwrap_or(reference::no_stats())
}

// The clips of the six channels.
#[tactic(auto, unfolding(reference::specs::Statistics::channel_of, reference::specs::Statistics::no_samples))]
pub fn clipped(done: Converted) -> [u64; 6]
    ensures { result ≡ clips_of done 0 ∷ clips_of done 1 ∷ clips_of done 2 ∷ clips_of done 3 ∷ clips_of done 4 ∷ clips_of done 5 ∷ [] }
{
    let [a, b, c, d, e, f] = stats(done).channels;
    [
        a.clipped, b.clipped, c.clipped, d.clipped, e.clipped, f.clipped,
    ]
}

// Whether channel 0 has this many clips and no other has any.
pub fn clips_are(done: Converted, n: u64) -> bool
    ensures { result ≡ (eqb (clips_of done 0) n && (eqb (clips_of done 1) 0 && (eqb (clips_of done 2) 0 && (eqb (clips_of done 3) 0 && (eqb (clips_of done 4) 0 && eqb (clips_of done 5) 0))))) }
{
    clipped(done) == [n, 0, 0, 0, 0, 0]
}
