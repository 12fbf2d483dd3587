// A block's sums, rounded in place.
ghost use Rattle.std.specs.Prelude.{◌≤◌, length};
ghost use Rattle.lanes.specs.inner.Lanes.{Filled};
ghost use Rattle.filters.specs.inner.Biases.{Sums, rounded};

// Every place of y, rounded at the shift Q.
pub fn all<const Q: u32>(y: &mut [i64])
    requires { (1 ≤ Q) × (Q ≤ 52) × Sums (length y.old) y.old }
    ensures { Filled (rounded Q y.old) y.old y.new }
{
    for place in y.iter_mut() {
        *place = rounding::div_round::<Q>(*place);
    }
}
