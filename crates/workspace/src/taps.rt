// The taps of a route's last filter, widened.
ghost use Rattle.std.specs.Prelude.{◌≡◌, ◌≤◌, take};

// The first `count` of the values, in an array of the longest filter's length: nothing here is on the heap.
#[derive(Clone, Copy)]
pub struct Taps {
    pub values: [i64; 117],
    pub count: usize,
    ghost few: { count ≤ 117 },
}

impl Taps {
    pub fn as_slice(&self) -> &[i64]
        ensures { result.now ≡ take self.now.count self.now.values }
    {
        &self.values[..self.count]
    }
}
