// Records out of numbers, floats by their bits.
ghost use Rattle.std.specs.Prelude.{◌≡◌};
ghost use Rattle.std.specs.Float.{binary64};
ghost use Rattle.std.specs.Float.Ieee.{of_bits, to_bits};

use reference::{ChannelStats, ConvertStats, Cutoff, Extremes, Filter, Gain, PcmRate, Settings};
use std::num::{f64_from_bits_with_nan, f64_to_bits_with_nan};

// Every NaN is one.
pub fn float(n: u64) -> f64
    ensures { result ≡ of_bits binary64 n }
{
    f64_from_bits_with_nan(n)
}

pub fn bits(x: f64) -> u64
    ensures { result ≡ to_bits binary64 x }
{
    f64_to_bits_with_nan(x)
}

pub fn gain(db: u64, factor: u64) -> Gain {
    Gain {
        db: float(db),
        linear: float(factor),
    }
}

// By a route: three times the cutoff and the rate, both from 0.
pub fn settings(route: u64, channels: u64, gain: Gain, filter: Option<Filter>) -> Settings {
    Settings {
        rate: rate(route),
        cutoff: cutoff(route),
        channels: (channels % 256) as u8,
        gain,
        filter,
    }
}

pub fn rate(route: u64) -> PcmRate {
    match route % 3 {
        0 => PcmRate::Hz88200,
        1 => PcmRate::Hz176400,
        _ => PcmRate::Hz352800,
    }
}

// By its hertz; a number that is none stands for 88,200.
pub fn rate_of_hertz(hertz: u64) -> PcmRate {
    PcmRate::try_from((hertz % 0x1_0000_0000) as u32).unwrap_or(PcmRate::Hz88200)
}

pub fn cutoff(route: u64) -> Cutoff {
    match route / 3 {
        0 => Cutoff::Standard,
        1 => Cutoff::Low,
        _ => Cutoff::Wide,
    }
}

pub fn route(rate: PcmRate, cutoff: Cutoff) -> u64 {
    let place = match rate {
        PcmRate::Hz88200 => 0,
        PcmRate::Hz176400 => 1,
        PcmRate::Hz352800 => 2,
    };
    3 * u64::from(cutoff) + place
}

// A channel's clips, extremes by their bits, and a mark where it has no samples.
pub fn channel_numbers(c: ChannelStats) -> [u64; 4] {
    match c.extremes {
        Some(e) => [
            c.clipped,
            e.lowest.cast_unsigned(),
            e.highest.cast_unsigned(),
            0,
        ],
        None => [c.clipped, 0, 0, 1],
    }
}

// Statistics out of a row: six clip counts, six lowest, six highest and six marks. The C interface's lists are of other
// types, `i64` and `u8`: to read them here would take both conversions.
pub fn stats_of_row(row: &[u64; 24]) -> ConvertStats {
    let mut channels = [ChannelStats::none(); 6];
    for c in 0..6 {
        channels[c].clipped = row[c];
        if row[18 + c] == 0 {
            channels[c].extremes = Some(Extremes {
                lowest: row[6 + c].cast_signed(),
                highest: row[12 + c].cast_signed(),
            });
        }
    }
    ConvertStats { channels }
}

// Whether statistics are a row's.
pub fn stats_are(stats: ConvertStats, row: &[u64; 24]) -> bool {
    (0..6usize).all(|c| channel_numbers(stats.channels[c])
        == [row[c], row[6 + c], row[12 + c], row[18 + c]])
}
