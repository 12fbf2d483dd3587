// Module 1, the rounding step: v / 2^Q to the nearest whole number, a tie to the even one; the stages take it at the
// shifts 23 and 24. No branch: beside the floor stands one sum over the remainder and the lowest kept bit. The
// filters bias their sums by 2^53, so that the machine divides numbers that are not negative; the bias is taken away
// last.
#![tactic(auto)]

ghost use Rattle.std.specs.Prelude.{◌≡◌, ◌^◌, ◌≤◌, pos, nat_abs, ◌-ℤ◌};
ghost use Rattle.reference.specs.Rounding.{R};

// The bias taken away.
fn lower(n: u64, bias: u64) -> i64
    requires { (n ≤ 2 ^ 62) × (bias ≤ 2 ^ 62) }
    ensures { result ≡ pos n -ℤ pos bias }
{
    n as i64 - bias as i64
}

pub fn div_round<const Q: u32>(biased: i64) -> i64
    requires { (1 ≤ Q) × (Q ≤ 52) × (biased ≡ pos (nat_abs biased)) × (nat_abs biased ≤ 2 ^ 54) }
    ensures { result ≡ R (biased -ℤ pos (2 ^ 53)) Q }
{
    let unit = 1u64 << Q;
    let w = biased as u64;
    let floor = w / unit;
    let rem = w % unit;
    let half = unit / 2;
    let carry = (rem + half - 1 + floor % 2) / unit;
    lower(floor + carry, 9007199254740992 / unit)
}
