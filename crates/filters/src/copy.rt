// Taps, widened to i64.
ghost use Rattle.std.specs.Prelude.{◌≡◌, ◌+◌, ◌*◌, ◌≤◌, length};
ghost use Rattle.numbers.specs.Sums.{at0};
ghost use Rattle.lanes.specs.inner.Lanes.{Filled};

pub fn widen_taps(h: &[i32], out: &mut [i64])
    requires { length out.old ≡ length h.now }
    ensures { out.new ≡ h.now }
{
    for (k, tap) in out.iter_mut().enumerate() {
        *tap = i64::from(h[k]);
    }
}

// Every second tap, from place `from` on.
pub fn every_second(h: &[i32], from: usize, out: &mut [i64])
    requires { 2 * length out.old + from ≤ length h.now + 1 }
    ensures { Filled (λ k. at0 h.now (2 * k + from)) out.old out.new }
{
    for (k, tap) in out.iter_mut().enumerate() {
        *tap = i64::from(h[2 * k + from]);
    }
}
