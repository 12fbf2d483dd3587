// Rates and cutoffs as numbers: a rate as its hertz, a cutoff as its place in the table.
ghost use Rattle.std.specs.Prelude.{◌≡◌};
ghost use Rattle.reference.specs.Codes as codes;
ghost use Rattle.reference.specs.inner.Codes as inner_codes;

use crate::{Cutoff, PcmRate};

// A number that is no rate.
#[derive(Clone, Copy, Debug, PartialEq, Eq)]
pub struct UnknownRate(pub u32);

// A number that is no cutoff.
#[derive(Clone, Copy, Debug, PartialEq, Eq)]
pub struct UnknownCutoff(pub u8);

impl From<PcmRate> for u64 {
    ghost from_gives = { λ rate n. n ≡ codes.hertz rate };

    fn from(rate: PcmRate) -> u64 {
        match rate {
            PcmRate::Hz88200 => 88200,
            PcmRate::Hz176400 => 176400,
            PcmRate::Hz352800 => 352800,
        }
    }
}

impl TryFrom<u32> for PcmRate {
    type Error = UnknownRate;

    ghost try_from_gives = { λ n r. r ≡ inner_codes.rate_from n };

    #[tactic(auto, unfolding(crate::specs::inner::Codes::rate_from))]
    fn try_from(n: u32) -> Result<Self, UnknownRate> {
        match n {
            88200 => Ok(PcmRate::Hz88200),
            176400 => Ok(PcmRate::Hz176400),
            352800 => Ok(PcmRate::Hz352800),
            _ => Err(UnknownRate(n)),
        }
    }
}

impl From<Cutoff> for u64 {
    ghost from_gives = { λ cutoff n. n ≡ codes.cutoff_number cutoff };

    fn from(cutoff: Cutoff) -> u64 {
        match cutoff {
            Cutoff::Standard => 0,
            Cutoff::Low => 1,
            Cutoff::Wide => 2,
        }
    }
}

impl TryFrom<u8> for Cutoff {
    type Error = UnknownCutoff;

    ghost try_from_gives = { λ n r. r ≡ inner_codes.cutoff_from n };

    #[tactic(auto, unfolding(crate::specs::inner::Codes::cutoff_from))]
    fn try_from(n: u8) -> Result<Self, UnknownCutoff> {
        match n {
            0 => Ok(Cutoff::Standard),
            1 => Ok(Cutoff::Low),
            2 => Ok(Cutoff::Wide),
            _ => Err(UnknownCutoff(n)),
        }
    }
}
