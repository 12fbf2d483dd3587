// Module 6, scaling.
ghost use Rattle.std.specs.Prelude.{◌≡◌, ℕ, ◌^◌, ◌<◌, T, nat_abs, length};
ghost use Rattle.std.specs.Float.{binary64};
ghost use Rattle.std.specs.Float.Ieee.{of_int};
ghost use Rattle.numbers.specs.Sums.{at0};
ghost use Rattle.reference.specs.Scaling.{scaled, clamp};
ghost use Rattle.floats.specs.inner.Whole.{whole_of, below_51};
ghost use Rattle.gain.specs.Scale.{bounded, ScaledBlock};
ghost use Rattle.gain.specs.inner.Scale.{unrounded, Clamped};

use reference::{ChannelStats, Extremes};

#[derive(Clone, Copy)]
struct Scaled {
    sample: i32,
    clipped: bool,
}

const MAGIC: f64 = 6755399441055744.0;

// A sample's range.
const LOWEST: i64 = -8388608;

const HIGHEST: i64 = 8388607;

// The whole number nearest x, ties to even, for x below 2^51 in size: no bit below 1 is left beside MAGIC, 3 × 2^51.
fn nearest_even(x: f64) -> f64
    requires { T (below_51 x) }
    ensures { result ≡ of_int binary64 (whole_of x) }
{
    (x + MAGIC) - MAGIC
}

// z brought into a sample's range. As whole numbers: no float is compared, which takes several instructions each.
#[tactic(auto, unfolding(reference::specs::Scaling::clamp))]
fn clip(z: i64) -> i64
    ensures { result ≡ clamp z }
{
    if z > HIGHEST {
        HIGHEST
    } else if z < LOWEST {
        LOWEST
    } else {
        z
    }
}

// What y becomes before it is rounded to a whole number.
fn product(y: i64, factor: f64) -> f64
    requires { nat_abs y < 2 ^ 32 }
    ensures { result ≡ unrounded factor y }
{
    (y as f64) * factor * 0.125
}

// The number that y becomes, before the clamp.
fn before_clamp(y: i32, factor: f64) -> i64
    requires { T (bounded factor) }
    ensures { result ≡ scaled factor y }
{
    let x = product(y as i64, factor);
    let z = nearest_even(x);
    z as i64
}

// y as a sample.
fn scale(y: i32, factor: f64) -> Scaled
    requires { T (bounded factor) }
    ensures { Clamped (scaled factor y) result.sample result.clipped }
{
    let z = before_clamp(y, factor);
    let s = clip(z);
    Scaled {
        sample: s as i32,
        clipped: (s < z) | (z < s),
    }
}

// The numbers of a block as samples. Scaling keeps their order, so that for the lowest and the highest no other y is
// scaled again. Each y fits an i32.
pub fn scale_block(ys: &[i64], factor: f64, out: &mut [i32]) -> ChannelStats
    requires ys_nonzero { (0 < length ys.now) × (length out.old ≡ length ys.now) }
    requires t { T (bounded factor) }
    requires by_index { (k : ℕ) → k < length ys.now → nat_abs (at0 ys.now k) < 2 ^ 31 }
    ensures { ScaledBlock factor ys.now out.old out.new result }
{
    let mut clipped = 0u64;
    let mut least = i32::MAX;
    let mut greatest = i32::MIN;
    for (i, place) in out.iter_mut().enumerate() {
        let y = ys[i] as i32;
        let scaled = scale(y, factor);
        *place = scaled.sample;
        clipped += u64::from(scaled.clipped);
        least = least.min(y);
        greatest = greatest.max(y);
    }
    ChannelStats {
        clipped,
        extremes: Some(Extremes {
            lowest: before_clamp(least, factor),
            highest: before_clamp(greatest, factor),
        }),
    }
}
