// Statistics as C holds them, read and told: 24 numbers, six of a kind.
#![tactic(auto)]

ghost use Rattle.std.specs.Prelude.{◌≡◌, ◌<◌};
ghost use Rattle.reference.specs.Refusals.{decision};
ghost use Rattle.codes.specs.inner.Codes.{if_known};
ghost use Rattle.codes.specs.Told.{if_ok, ToldWhole};
ghost use Rattle.c_stats.specs.Stats as stats;
ghost use Rattle.c_stats.specs.Stats.{known_stats, held_channel, held_stats, channel_number, stat_numbers};

use reference::{ChannelStats, ConvertStats, Extremes, PcmError};
use std::array;

// Whether every mark is a flag.
fn known(block: &[u64; 24]) -> bool
    ensures { result ≡ known_stats block.now }
{
    let b = block;
    b[18] < 2 && b[19] < 2 && b[20] < 2 && b[21] < 2 && b[22] < 2 && b[23] < 2
}

// What is held of a channel.
#[tactic(auto, unfolding(crate::specs::Stats::held_channel))]
fn channel(block: &[u64; 24], c: usize) -> ChannelStats
    requires { c < 6 }
    ensures { result ≡ held_channel block.now c }
{
    let ends = Extremes {
        lowest: block[6 + c].cast_signed(),
        highest: block[12 + c].cast_signed(),
    };
    let extremes = if block[18 + c] == 1 { None } else { Some(ends) };
    ChannelStats {
        clipped: block[c],
        extremes,
    }
}

// The statistics that the numbers hold, where each mark is a flag.
#[tactic(auto, unfolding(codes::specs::inner::Codes::if_known, crate::specs::Stats::held_stats))]
pub fn stats_of(block: &[u64; 24]) -> Option<ConvertStats>
    ensures { result ≡ if_known (known_stats block.now) (held_stats block.now) }
{
    if !known(block) {
        return None;
    }
    Some(ConvertStats {
        channels: array::from_fn(|c| channel(block, c)),
    })
}

// Number k of a channel.
fn number(channel: ChannelStats, k: usize) -> u64
    ensures { result ≡ channel_number channel k }
{
    let none = Extremes {
        lowest: 0,
        highest: 0,
    };
    let ends = channel.extremes.unwrap_or(none);
    match k {
        0 => channel.clipped,
        1 => ends.lowest.cast_unsigned(),
        2 => ends.highest.cast_unsigned(),
        _ => u64::from(channel.extremes.is_none()),
    }
}

// Statistics are written, number by number: a place of 24 would be divided for its channel and its kind.
#[tactic(auto, unfolding(crate::specs::Stats::stat_numbers, reference::specs::Statistics::channel_of, reference::specs::Statistics::no_samples, numbers::specs::Lists::tabulate))]
pub fn put_stats(stats: ConvertStats, block: &mut [u64; 24])
    ensures { block.new ≡ stat_numbers stats }
{
    let [a, b, c, d, e, f] = stats.channels;
    *block = [
        number(a, 0),
        number(b, 0),
        number(c, 0),
        number(d, 0),
        number(e, 0),
        number(f, 0),
        number(a, 1),
        number(b, 1),
        number(c, 1),
        number(d, 1),
        number(e, 1),
        number(f, 1),
        number(a, 2),
        number(b, 2),
        number(c, 2),
        number(d, 2),
        number(e, 2),
        number(f, 2),
        number(a, 3),
        number(b, 3),
        number(c, 3),
        number(d, 3),
        number(e, 3),
        number(f, 3),
    ];
}

// A conversion's decision is told, and its statistics are written where it was accepted.
pub fn tell_conversion(
    made: Result<ConvertStats, PcmError>,
    stats: &mut [u64; 24],
    data: &mut [u64; 2],
    decibels: &mut [f64; 1],
) -> u8
    ensures told_whole { ToldWhole (decision made) result «data».new decibels.new }
    ensures stats_after { stats.new ≡ if_ok stat_numbers made stats.old }
{
    if let Ok(s) = made {
        put_stats(s, stats);
    }
    codes::tell(&made, data, decibels)
}
