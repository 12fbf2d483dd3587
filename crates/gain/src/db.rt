// Decibels and their factor.
ghost use Rattle.std.specs.Prelude.{◌≡◌};
ghost use Rattle.reference.specs.Promises.{GainPromise};
ghost use Rattle.reference.specs.Scaling as scaling;

use reference::{Gain, PcmError};

const LN_10: f64 = 2.30258509299404568401799145468436421;

// |db|, +0 for -0.
#[tactic(auto, using(crate::proofs::Records::abs_is))]
fn magnitude(db: f64) -> f64
    ensures { result ≡ scaling.magnitude db }
{
    db.abs()
}

// e^r by 25 terms of its series after the 1.
fn series(r: f64) -> f64
    ensures { result ≡ scaling.series r 25 1 (scaling.whole 1) (scaling.whole 1) }
{
    let mut term = 1.0f64;
    let mut sum = 1.0f64;
    for k in 1..=25u32 {
        term = term * r / (k as f64);
        sum += term;
    }
    sum
}

// The factor of db decibels: e^(|db| ln 10 / 20) as the 32nd power of e to a 32nd of that; below 0 dB one over it.
pub fn db_to_linear(db: f64) -> f64
    ensures { result ≡ scaling.db_to_linear db }
{
    let mut power = series(magnitude(db) * (LN_10 / 20.0) / 32.0);
    for _ in 0..5u32 {
        power *= power;
    }
    if db < 0.0 { 1.0 / power } else { power }
}

#[tactic(auto, using(crate::proofs::Records::from_below, crate::proofs::Records::too_low))]
fn allowed(db: f64) -> bool
    ensures { result ≡ scaling.allowed db }
{
    db >= -120.0 && db <= 24.0
}

// The gain call.
#[tactic(auto, using(crate::proofs::Records::made, crate::proofs::Records::turned_down))]
pub fn from_db(db: f64) -> Result<Gain, PcmError>
    ensures { GainPromise db result }
{
    if !allowed(db) {
        return Err(PcmError::Gain(db));
    }
    Ok(Gain {
        db,
        linear: db_to_linear(db),
    })
}

// Whether the gain call makes this record, bit for bit. A NaN is the factor of no decibels.
#[tactic(auto, using(crate::proofs::Records::factor_number, crate::proofs::Records::no_number), unfolding(reference::specs::Scaling::right_gain))]
pub fn right_gain(g: Gain) -> bool
    ensures { result ≡ scaling.right_gain g }
{
    allowed(g.db) && !g.linear.is_nan() && g.linear.to_bits() == db_to_linear(g.db).to_bits()
}
