// HB, the half band, over blocks: a sum stays in its lane from the centre to the rounding.
#![tactic(auto)]

ghost use Rattle.std.specs.Prelude.{◌≡◌, ℕ, ◌+◌, ◌-◌, ◌*◌, ◌^◌, ◌≤◌, ◌<◌, pos, nat_abs, ◌-ℤ◌, ◌+ℤ◌, ◌*ℤ◌, length};
ghost use Rattle.numbers.specs.Sums.{at0};
ghost use Rattle.reference.specs.Rounding.{R};
ghost use Rattle.reference.specs.Taps.{HB};
ghost use Rattle.numbers.specs.inner.Lists.{Held, Written};
ghost use Rattle.lanes.specs.inner.Lanes.{Small, Filled, copied, arms, Low, Lanes, Added};
ghost use Rattle.filters.specs.inner.Filters.{odd_taps, alone, half_rate, middle, Fit};
ghost use Rattle.band.specs.inner.Bands.{odd_sizes, signed, band_sum, Whole};
ghost use Rattle.filters.specs.inner.Biases.{biased, rounded, Sums};

// The sizes of HB's odd taps, lent, and a copy of the odd places.
#[derive(Clone, Copy)]
struct Band<'a> {
    sizes: &'a [u32],
    v: &'a [u64],
    ghost eight: { length sizes.now ≡ 8 },
    ghost odd: { sizes.now ≡ odd_sizes },
    ghost low: { Low v.now },
}

// 2^23 times a, biased.
fn halved(a: i64) -> i64
    requires { nat_abs a ≤ 2 ^ 29 }
    ensures { result ≡ pos 8388608 *ℤ (a +ℤ pos (2 ^ 29)) }
{
    8388608 * (a + 536870912)
}

// The centre's products at L places, from i on.
fn centre<const L: usize>(y: &[i64], i: usize) -> [i64; L]
    requires i_in_bounds { i + L ≤ length y.now }
    requires by_index { (k : ℕ) → i ≤ k → nat_abs (at0 y.now k) ≤ 2 ^ 29 }
    ensures { Held (pos 0) (λ k. pos 8388608 *ℤ biased y.now k) i L result }
{
    let mut s = [0i64; L];
    for l in 0..L {
        s[l] = halved(y[i + l]);
    }
    s
}

// s + size * w or, by `minus`, s - size * w
#[tactic(auto, using(crate::proofs::Turns::signed_product), unfolding(crate::specs::inner::Bands::signed))]
fn tap(s: i64, minus: bool, size: u32, w: u64) -> i64
    requires { nat_abs s + size * w < 2 ^ 63 }
    ensures { result ≡ s +ℤ signed minus size *ℤ pos w }
{
    let product = (u64::from(size) * w) as i64;
    if minus { s - product } else { s + product }
}

// A sum gains a tap of this size, or minus it, with two values of the copy.
#[tactic(auto, unfolding(lanes::specs::inner::Lanes::copied))]
fn pair(s: i64, minus: bool, size: u32, v: &[u64], i: usize, j: usize) -> i64
    requires i_in_bounds { (i < length v.now) × (j < length v.now) × (size ≤ 2 ^ 25) × (nat_abs s ≤ 126 * 2 ^ 56) }
    requires low { Low v.now }
    ensures { result ≡ s +ℤ signed minus size *ℤ (copied v.now i +ℤ copied v.now j) }
{
    tap(s, minus, size, (v[i] + v[j]) % 4294967296)
}

// Every lane gains two taps of one sign, two places apart. `minus` is a number that the callers write: no sign is
// tested.
fn two<const L: usize>(
    acc: [i64; L],
    minus: bool,
    a: u32,
    b: u32,
    v: &[u64],
    down: usize,
    up: usize,
) -> [i64; L]
    requires down_in_bounds { (down + L + 2 ≤ length v.now) × (up + L + 2 ≤ length v.now) × (a ≤ 2 ^ 25) × (b ≤ 2 ^ 25) }
    requires low { Low v.now }
    requires lanes { Lanes L (125 * 2 ^ 56) acc }
    ensures { Added L (λ l. signed minus a *ℤ (copied v.now (down + 2 + l) +ℤ copied v.now (up + l))
        +ℤ signed minus b *ℤ (copied v.now (down + l) +ℤ copied v.now (up + 2 + l))) acc.entry result }
{
    let mut s = acc;
    for l in 0..L {
        let q = pair(s[l], minus, a, v, down + 2 + l, up + l);
        s[l] = pair(q, minus, b, v, down + l, up + 2 + l);
    }
    s
}

// The eight taps, each turn by name: through `Arms::add` every lane goes through memory, and a route takes 1.2 times
// as long. In line, so that they stay in registers from the centre to the rounding.
#[inline(always)]
fn eight<const L: usize>(acc: [i64; L], band: Band, i: usize) -> [i64; L]
    requires i_in_bounds { i + L + 15 ≤ length band.v.now }
    requires lanes { Lanes L (2 ^ 55) acc }
    ensures { Added L (λ l. arms (odd_taps HB) (copied band.entry.v.now) 0 (8 + (i + l) - 1) (8 + (i + l)) 8) acc.entry result }
{
    let h = band.sizes;
    let v = band.v;
    let a = two(acc, false, h[0], h[2], v, i + 5, i + 8);
    let b = two(a, true, h[1], h[3], v, i + 4, i + 9);
    let c = two(b, false, h[4], h[6], v, i + 1, i + 12);
    two(c, true, h[5], h[7], v, i, i + 13)
}

// L sums, rounded, to y from i on.
fn round<const L: usize, const Q: u32>(y: &mut [i64], i: usize, s: [i64; L])
    requires i_in_bounds { (i + L ≤ length y.old) × (1 ≤ Q) × (Q ≤ 52) }
    requires sums { Sums L s }
    ensures { Written (pos 0) (λ l. i + l) (rounded Q s.entry) L y.old y.new }
{
    for l in 0..L {
        y[i + l] = rounding::div_round::<Q>(s[l]);
    }
}

// The half band at L places of y, from i on.
fn block<const L: usize, const Q: u32>(y: &mut [i64], i: usize, band: Band)
    requires i_in_bounds { (i + L ≤ length y.old) × (i + L + 15 ≤ length band.v.now) × (length band.v.now ≤ 512) × (1 ≤ Q) × (Q ≤ 52) }
    requires by_index { (k : ℕ) → i ≤ k → nat_abs (at0 y.old k) ≤ 2 ^ 29 }
    requires whole { Whole (band_sum y.old band.v.now) i (i + L) }
    ensures { Written (pos 0) (λ l. i + l) (λ l. R (band_sum y.old band.entry.v.now (i + l) -ℤ pos (2 ^ 53)) Q) L y.old y.new }
{
    let s = eight(centre::<L>(y, i), band, i);
    round::<L, Q>(y, i, s);
}

// The half band at every place of y, which holds what its centre reads.
fn places<const Q: u32>(y: &mut [i64], band: Band)
    requires y_in_bounds { (length y.old + 15 ≤ length band.v.now) × (length band.v.now ≤ 512) × (1 ≤ Q) × (Q ≤ 52) }
    requires small { Small (2 ^ 29) y.old }
    requires whole { Whole (band_sum y.old band.v.now) 0 (length y.old) }
    ensures { Filled (λ k. R (band_sum y.old band.entry.v.now k -ℤ pos (2 ^ 53)) Q) y.old y.new }
{
    let blocks = y.len() / 14;
    for b in 0..blocks {
        block::<14, Q>(y, 14 * b, band);
    }
    for k in 14 * blocks..y.len() {
        block::<1, Q>(y, k, band);
    }
}

// The sizes of HB's odd taps. They are lent: of taps that it sees the compiler makes products that take longer.
pub fn half_sizes() -> [u32; 8]
    ensures { result ≡ odd_sizes }
{
    [5235718, 1487952, 644686, 277535, 105711, 32783, 7382, 923]
}

// HB at half the rate, in place: y holds the values at even places, xo those at odd ones. Of the even taps only the
// centre is not 0. v is lent for the copy.
pub fn half(y: &mut [i64], sizes: &[u32], xo: &[i64], v: &mut [u64])
    requires lent { sizes.now ≡ odd_sizes }
    requires y_in_bounds { (length y.old + 15 ≤ length xo.now) × (length xo.now ≤ length v.old) × (length v.old ≤ 512) }
    requires low { Low v.old }
    requires small { Small (2 ^ 29) y.old }
    requires small_2 { Small (2 ^ 29) xo.now }
    requires fit { Fit (half_rate alone (odd_taps HB) y.old xo.now) (length y.old) }
    ensures filled { Filled (λ i. R (half_rate alone (odd_taps HB) y.old xo.now i) 24) y.old y.new }
    ensures still_low { Low v.new }
{
    filters::bias_all(xo, v);
    places::<24>(y, Band { sizes, v });
}

// HB's places between those of x: over a y of zeros the centre adds nothing.
pub fn interp(y: &mut [i64], sizes: &[u32], x: &[i64], v: &mut [u64])
    requires lent { sizes.now ≡ odd_sizes }
    requires y_in_bounds { (length y.old + 15 ≤ length x.now) × (length x.now ≤ length v.old) × (length v.old ≤ 512) }
    requires low { Low v.old }
    requires small { Small (2 ^ 29) x.now }
    requires fit { Fit (middle (odd_taps HB) x.now) (length y.old) }
    ensures filled { Filled (λ i. R (middle (odd_taps HB) x.now i) 23) y.old y.new }
    ensures still_low { Low v.new }
{
    filters::bias_all(x, v);
    y.fill(0);
    places::<23>(y, Band { sizes, v });
}
