// The figures of a channel, out of a frame's samples.
#![tactic(auto)]

ghost use Rattle.std.specs.Prelude.{◌≡◌, ◌*◌, ◌+◌, ◌/◌, ◌<◌, ◌≤◌, length, get_or, pos};
ghost use Rattle.numbers.specs.Extremes as extremes;
ghost use Rattle.overs.specs.Overs.{overs_of};
ghost use Rattle.channel_levels.specs.inner.Channels.{level_of};

use level_lines::Level;
use overs::{OverCount, Progress};

// Of samples, after the clamp: reference's `Extremes` are of numbers before it, in 64 bits, and are told of no samples.
#[derive(Clone, Copy)]
struct Extremes {
    low: i32,
    high: i32,
}

// Lowest and highest sample of channel c. The samples of all channels, their count `ch` and c come one by one here and
// in the next two functions: they are how overs asks for a channel, and c alone changes from call to call in `lines`.
#[tactic(auto, unfolding(numbers::specs::Extremes::lesser, numbers::specs::Extremes::greater))]
fn extremes_of(samples: &[i32], ch: usize, c: usize) -> Extremes
    requires { (c < ch) × (ch ≤ length samples.now) }
    ensures low_value { result.low ≡ extremes.extreme extremes.lesser (λ n. get_or samples.now (n * ch + c) (pos 0)) 0 (length samples.now / ch) }
    ensures high_value { result.high ≡ extremes.extreme extremes.greater (λ n. get_or samples.now (n * ch + c) (pos 0)) 0 (length samples.now / ch) }
{
    // By an index, as the channels take turns.
    let mut low = samples[c];
    let mut high = samples[c];
    for k in 0..samples.len() / ch {
        let s = samples[k * ch + c];
        low = low.min(s);
        high = high.max(s);
    }
    Extremes { low, high }
}

// Overs of channel c from what is in progress before it: none where its lowest and highest sample lie between the ends
// of full scale.
#[tactic(auto, using(crate::proofs::Quiet::quiet_channel))]
fn overs_of(samples: &[i32], ch: usize, c: usize, e: Extremes, p: Progress) -> OverCount
    requires c_lt_ch { (c < ch) × (ch ≤ length samples.now) × (length samples.now ≡ length samples.now / ch * ch) }
    requires low_value { e.low ≡ extremes.extreme extremes.lesser (λ n. get_or samples.now (n * ch + c) (pos 0)) 0 (length samples.now / ch) }
    requires high_value { e.high ≡ extremes.extreme extremes.greater (λ n. get_or samples.now (n * ch + c) (pos 0)) 0 (length samples.now / ch) }
    ensures { result ≡ overs_of samples.now ch c p }
{
    if -8388608 < e.low && e.high < 8388607 {
        return OverCount {
            count: 0,
            next: None,
        };
    }
    channel_overs::overs(samples, ch, c, p)
}

// What is told of a channel of a frame with so many clips, and what is in progress after it.
#[tactic(auto, unfolding(crate::specs::inner::Channels::level_of))]
pub fn level(clipped: u64, samples: &[i32], ch: usize, c: usize, p: Progress) -> (Level, Progress)
    requires { (c < ch) × (ch ≤ 6) × (ch ≤ length samples.now) × (length samples.now ≡ length samples.now / ch * ch) }
    ensures level_value { result.0 ≡ level_of clipped samples.now ch c p }
    ensures next_value { result.1 ≡ (overs_of samples.now ch c p).next }
{
    let e = extremes_of(samples, ch, c);
    let over = overs_of(samples, ch, c, e, p);
    let level = Level {
        clipped,
        low: e.low,
        high: e.high,
        over: over.count,
    };
    (level, over.next)
}
