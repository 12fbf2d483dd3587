// Whether a label's low-pass is taken.
#![tactic(auto)]

ghost use Rattle.std.specs.Prelude.{◌≡◌, ◌^◌, ◌<◌, ◌≤◌, nat_abs, length};
ghost use Rattle.reference.specs.Stages as stages;
ghost use Rattle.reference.specs.Refusals as table;
ghost use Rattle.reference.specs.Refusals.{decision, decide, filter_places};

use reference::{Filter, PcmError};

#[derive(Clone, Copy)]
struct Total {
    sum: i64,
    size: u64,
}

// Centre plus twice the rest, and the same of the taps' sizes.
fn sums(h: &[i32]) -> Total
    requires { (0 < length h.now) × (length h.now ≤ 117) }
    ensures { (result.sum ≡ stages.whole_sum h.now) × (result.size ≡ stages.whole_size h.now) × (nat_abs result.sum < 2 ^ 63) }
{
    let centre = h[0];
    let mut sum: i64 = 0;
    let mut size: u64 = 0;
    // By an index: what stands so far is told of the first k taps.
    for k in 1..h.len() {
        let tap = h[k];
        sum += tap as i64;
        size += tap.unsigned_abs() as u64;
    }
    Total {
        sum: centre as i64 + sum * 2,
        size: centre.unsigned_abs() as u64 + 2 * size,
    }
}

#[tactic(auto, using(crate::proofs::Taps::right_sum, crate::proofs::Taps::wrong_sum))]
fn right_sums(taps: &[i32]) -> bool
    requires { (0 < length taps.now) × (length taps.now ≤ 117) }
    ensures { result ≡ table.right_sums taps.now }
{
    let s = sums(taps);
    s.sum == 16777216 && s.size <= 40000000
}

// Refusals 17 and 18.
#[tactic(auto, using(crate::proofs::Taps::too_few, crate::proofs::Taps::too_many, crate::proofs::Taps::some_taps, crate::proofs::Taps::wrong_sums, crate::proofs::Taps::taken))]
pub fn filter(f: Filter) -> Result<(), PcmError>
    ensures { decision result ≡ decide (filter_places f) }
{
    if f.count < 1 || f.count > 117 {
        return Err(PcmError::Taps);
    }
    if !right_sums(f.taps()) {
        return Err(PcmError::TapSums);
    }
    Ok(())
}
