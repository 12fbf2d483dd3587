// What the sums start with: the centre's products. And the copy of a block that the taps
// read: each value is below 2^29 in size, and biased by that.
ghost use Rattle.std.specs.Prelude.{◌≡◌, ◌+◌, ◌-◌, ◌/◌, ◌^◌, ◌≤◌, pos, nat_abs, ◌+ℤ◌, ◌*ℤ◌, length};
ghost use Rattle.lanes.specs.inner.Lanes.{Small, Filled, copied, Low};
ghost use Rattle.filters.specs.inner.Filters.{seconds};
ghost use Rattle.filters.specs.inner.Biases.{Copied};

// A value biased.
fn bias(a: i64) -> u64
    requires { nat_abs a ≤ 2 ^ 29 }
    ensures { (pos result ≡ a +ℤ pos (2 ^ 29)) × (result ≤ 2 ^ 30) }
{
    (a + 536870912) as u64
}

// The copy: v begins with x, each value biased. By an index, which goes over both; v may be longer.
pub fn bias_all(x: &[i64], v: &mut [u64])
    requires x_in_bounds { length x.now ≤ length v.old }
    requires small { Small (2 ^ 29) x.now }
    requires low { Low v.old }
    ensures { Copied (length x.now) x.now v.new }
{
    for k in 0..x.len() {
        v[k] = bias(x[k]);
    }
}

// Every second value of x, from place `from` on, biased. Not `bias_all` with a step and a start: the number of values
// read has a formula of its own, which `bias_all`, with all values from place 0, would have to promise and prove as
// well.
pub fn bias_second(x: &[i64], from: usize, v: &mut [u64])
    requires from_bound { (from ≤ 1) × (length x.now ≤ 400) × (200 ≤ length v.old) }
    requires small { Small (2 ^ 29) x.now }
    requires low { Low v.old }
    ensures { Copied ((length x.now + 1 - from) / 2) (seconds from x.now) v.new }
{
    for k in 0..(x.len() + 1 - from) / 2 {
        v[k] = bias(x[2 * k + from]);
    }
}

// h * a
fn product(h: i64, a: u64) -> i64
    requires { (nat_abs h ≤ 2 ^ 25) × (a ≤ 2 ^ 30) }
    ensures { result ≡ h *ℤ pos a }
{
    lanes::tap1(0, h, a % 4294967296)
}

// The centre's products, over the copy from place `at` on.
pub fn centre(y: &mut [i64], h: i64, v: &[u64], at: usize)
    requires y_in_bounds { (at + length y.old ≤ length v.now) × (nat_abs h ≤ 2 ^ 25) }
    requires low { Low v.now }
    ensures { Filled (λ k. h *ℤ copied v.now (at + k)) y.old y.new }
{
    for (k, place) in y.iter_mut().enumerate() {
        *place = product(h, v[at + k]);
    }
}
