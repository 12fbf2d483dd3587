// The statistics of two stretches as those of one.
#![tactic(auto)]

ghost use Rattle.std.specs.Prelude.{◌≡◌};
ghost use Rattle.reference.specs.Statistics.{joined_stats};

use reference::ConvertStats;

// The statistics of a and b taken as one stretch.
pub fn join_stats(a: ConvertStats, b: ConvertStats) -> ConvertStats
    ensures { result ≡ joined_stats a b }
{
    let mut channels = a.channels;
    for c in 0..6 {
        channels[c] = a.channels[c].join(b.channels[c]);
    }
    ConvertStats { channels }
}
