// Module 5: filters over blocks of whole numbers: the sums of every place, then their rounding. Every place of the
// output is written, nothing else is. The lanes that the sums are made in: crate lanes.
//
// That values are below 2^29 and taps below 2^25 is a clause of each function that needs it: values are slices that
// are written from stage to stage, and a struct of one with its bound would be made anew for each call. The taps of
// `Arms` have it as a fact.
#![tactic(auto)]

ghost use Rattle.std.specs.Prelude.{◌+◌, ◌*◌, ◌-◌, ◌^◌, ◌≤◌, ◌<◌, length};
ghost use Rattle.reference.specs.Rounding.{R};
ghost use Rattle.lanes.specs.inner.Lanes.{Small, Filled, Low};
ghost use Rattle.filters.specs.inner.Filters.{seconds, same_rate, half_rate, Fit, UnityGain, Phases};

mod copy;
mod round;
mod start;

pub use copy::{every_second, widen_taps};
use lanes::Arms;
pub use start::bias_all;

// A filter at the rate of its input. v is lent for the copy: made here it would be zeroed for each block.
#[inline(always)]
pub fn fir1(y: &mut [i64], h: &[i64], x: &[i64], v: &mut [u64])
    requires h_nonzero { (0 < length h.now) × (length h.now ≤ 117) × (length y.old + 2 * (length h.now - 1) ≤ length x.now) × (length x.now ≤ length v.old) × (length v.old ≤ 512) }
    requires low { Low v.old }
    requires filter { UnityGain h.now }
    requires small { Small (2 ^ 29) x.now }
    requires fit { Fit (same_rate h.now x.now) (length y.old) }
    ensures filled { Filled (λ i. R (same_rate h.now x.now i) 24) y.old y.new }
    ensures still_low { Low v.new }
{
    start::bias_all(x, v);
    let m = h.len() - 1;
    let c = h[0];
    start::centre(y, c, v, m);
    let arms = Arms {
        h,
        v,
        end: m + 1,
        up: m,
    };
    arms.add(y, 1);
    round::all::<24>(y);
}

// A filter at half the rate: its even taps over the places of x at an even distance from the centre, its odd ones over
// the others. ve and vo are lent for the copies.
#[inline(always)]
pub fn dec2(y: &mut [i64], he: &[i64], ho: &[i64], x: &[i64], ve: &mut [u64], vo: &mut [u64])
    requires he_nonzero { (0 < length he.now) × (length he.now + length ho.now ≤ 117) × (length he.now ≤ length ho.now + 1)
        × (length ho.now ≤ length he.now) × (2 * (length y.old + length he.now + length ho.now) ≤ length x.now + 3) × (length x.now ≤ 400) }
    requires low { Low ve.old × Low vo.old × (200 ≤ length ve.old) × (200 ≤ length vo.old) × (length ve.old ≤ 512) × (length vo.old ≤ 512) }
    requires phases { Phases he.now ho.now }
    requires small { Small (2 ^ 29) x.now }
    requires fit { Fit (half_rate he.now ho.now (seconds (length ho.now + 1 - length he.now) x.now) (seconds (length he.now - length ho.now) x.now)) (length y.old) }
    ensures filled { Filled (λ i. R (half_rate he.now ho.now (seconds (length ho.now + 1 - length he.now) x.now) (seconds (length he.now - length ho.now) x.now) i) 24) y.old y.new }
    ensures still_low { Low ve.new × Low vo.new }
{
    let m = he.len() - 1;
    let o = ho.len();
    start::bias_second(x, o + 1 - he.len(), ve);
    start::bias_second(x, he.len() - o, vo);
    let c = he[0];
    start::centre(y, c, ve, m);
    let even = Arms {
        h: he,
        v: ve,
        end: m + 1,
        up: m,
    };
    even.add(y, 1);
    let odd = Arms {
        h: ho,
        v: vo,
        end: o,
        up: o,
    };
    odd.add(y, 0);
    round::all::<24>(y);
}
