// Sums gain the taps' products, L places at a time: the lanes. A copy of the block has each value biased by 2^29, and
// a tap's sign stands outside: so each product is of two numbers below 2^32, which the machine multiplies several at
// a time.
#![tactic(auto)]

ghost use Rattle.std.specs.Prelude.{◌≡◌, ℕ, ◌+◌, ◌*◌, ◌-◌, ◌^◌, ◌≤◌, ◌<◌, pos, nat_abs, ◌+ℤ◌, ◌*ℤ◌, length};
ghost use Rattle.numbers.specs.Sums.{at0};
ghost use Rattle.numbers.specs.inner.Lists.{Written};
ghost use Rattle.lanes.specs.inner.Lanes.{Small, Filled, copied, arms, fourths, Low, Lanes, Added};

// s + h * w
pub fn tap1(s: i64, h: i64, w: u64) -> i64
    requires { (nat_abs s + nat_abs h * w < 2 ^ 63) × (nat_abs h ≤ 2 ^ 25) }
    ensures { result ≡ s +ℤ h *ℤ pos w }
{
    if h < 0 {
        s - (u64::from(-h as u32) * w) as i64
    } else {
        s + (u64::from(h as u32) * w) as i64
    }
}

// A sum gains a tap with two values of the copy.
#[tactic(auto, unfolding(crate::specs::inner::Lanes::copied))]
fn pair(s: i64, h: i64, v: &[u64], i: usize, j: usize) -> i64
    requires i_in_bounds { (i < length v.now) × (j < length v.now) × (nat_abs h ≤ 2 ^ 25) × (nat_abs s ≤ 126 * 2 ^ 56) }
    requires low { Low v.now }
    ensures { result ≡ s +ℤ h *ℤ (copied v.now i +ℤ copied v.now j) }
{
    tap1(s, h, (v[i] + v[j]) % 4294967296)
}

// Every lane gains a tap. Its sign does not change from lane to lane: the compiler takes the test out of the loop.
fn one<const L: usize>(acc: [i64; L], h: i64, v: &[u64], down: usize, up: usize) -> [i64; L]
    requires down_in_bounds { (down + L ≤ length v.now) × (up + L ≤ length v.now) × (nat_abs h ≤ 2 ^ 25) }
    requires low { Low v.now }
    requires lanes { Lanes L (126 * 2 ^ 56) acc }
    ensures { Added L (λ l. h *ℤ (copied v.now (down + l) +ℤ copied v.now (up + l))) acc.entry result }
{
    let mut s = acc;
    for l in 0..L {
        s[l] = pair(s[l], h, v, down + l, up + l);
    }
    s
}

// Two taps, two places apart: two values at a time are loaded, so most of those that the second tap takes are there
// from the first.
pub fn two<const L: usize>(
    acc: [i64; L],
    a: i64,
    b: i64,
    v: &[u64],
    down: usize,
    up: usize,
) -> [i64; L]
    requires down_in_bounds { (down + L + 2 ≤ length v.now) × (up + L + 2 ≤ length v.now) × (nat_abs a ≤ 2 ^ 25) × (nat_abs b ≤ 2 ^ 25) }
    requires low { Low v.now }
    requires lanes { Lanes L (125 * 2 ^ 56) acc }
    ensures { Added L (λ l. a *ℤ (copied v.now (down + 2 + l) +ℤ copied v.now (up + l)) +ℤ b *ℤ (copied v.now (down + l) +ℤ copied v.now (up + 2 + l))) acc.entry result }
{
    let mut s = acc;
    for l in 0..L {
        let q = pair(s[l], a, v, down + 2 + l, up + l);
        s[l] = pair(q, b, v, down + l, up + 2 + l);
    }
    s
}

// Taps over a copy: tap j takes the values j + 1 below place `end` and j above place `up`.
#[derive(Clone, Copy)]
pub struct Arms<'a> {
    pub h: &'a [i64],
    pub v: &'a [u64],
    pub end: usize,
    pub up: usize,
    ghost few: { length h.now ≤ 117 },
    ghost before: { length h.now ≤ end },
    ghost small: { Small (2 ^ 25) h.now },
    ghost low: { Low v.now },
}

impl<'a> Arms<'a> {
    // Those of the place i further on.
    pub fn at(self, i: usize) -> Arms<'a>
        requires { (self.end + i < 2 ^ 64) × (self.up + i < 2 ^ 64) }
        ensures { (result.h.now ≡ self.entry.h.now) × (result.v.now ≡ self.entry.v.now) × (result.end ≡ self.entry.end + i) × (result.up ≡ self.entry.up + i) }
    {
        Arms {
            h: self.h,
            v: self.v,
            end: self.end + i,
            up: self.up + i,
        }
    }

    // n taps, every fourth from place `from` on, each with the one two places after it. Out of line: put in line into
    // `pairs`, its lanes go through memory, and `fir1` takes 1.3 times as long.
    #[inline(never)]
    fn fourths<const L: usize>(self, acc: [i64; L], from: usize, n: usize) -> [i64; L]
        requires n_in_bounds { (from + 4 * n ≤ length self.h.now + 1) × (self.end + L ≤ length self.v.now + 1) × (self.up + length self.h.now + L ≤ length self.v.now + 1) }
        requires lanes { Lanes L ((127 - 2 * n) * 2 ^ 56) acc }
        ensures { Added L (λ l. fourths self.entry.h.now (copied self.entry.v.now) from (self.entry.end + l - 1) (self.entry.up + l) n) acc.entry result }
    {
        let mut s = acc;
        for k in 0..n {
            let j = from + 4 * k;
            s = two(
                s,
                self.h[j],
                self.h[j + 2],
                self.v,
                self.end - 3 - j,
                self.up + j,
            );
        }
        s
    }

    // The taps from place `from` on, one after the other.
    #[inline(always)]
    fn singly<const L: usize>(self, acc: [i64; L], from: usize) -> [i64; L]
        requires from_in_bounds { (from ≤ length self.h.now) × (self.end + L ≤ length self.v.now + 1) × (self.up + length self.h.now + L ≤ length self.v.now + 1) }
        requires lanes { Lanes L ((127 - (length self.h.now - from)) * 2 ^ 56) acc }
        ensures { Added L (λ l. arms self.entry.h.now (copied self.entry.v.now) from (self.entry.end + l - 1) (self.entry.up + l) (length self.entry.h.now - from)) acc.entry result }
    {
        let mut s = acc;
        for j in from..self.h.len() {
            s = one(s, self.h[j], self.v, self.end - 1 - j, self.up + j);
        }
        s
    }

    // The taps from place `from` on, by fourths, and those left over.
    #[inline(always)]
    pub fn pairs<const L: usize>(self, acc: [i64; L], from: usize) -> [i64; L]
        requires from_in_bounds { (from ≤ length self.h.now) × (self.end + L ≤ length self.v.now + 1) × (self.up + length self.h.now + L ≤ length self.v.now + 1) }
        requires lanes { Lanes L ((127 - length self.h.now) * 2 ^ 56) acc }
        ensures { Added L (λ l. arms self.entry.h.now (copied self.entry.v.now) from (self.entry.end + l - 1) (self.entry.up + l) (length self.entry.h.now - from)) acc.entry result }
    {
        let n = (self.h.len() - from) / 4;
        let a = self.fourths(acc, from, n);
        let b = self.fourths(a, from + 1, n);
        self.singly(b, from + 4 * n)
    }

    // L places of y, from i on, gain the taps from place `from` on.
    fn add_block<const L: usize>(self, y: &mut [i64], i: usize, from: usize)
        requires i_in_bounds { (i + L ≤ length y.old) × (from ≤ length self.h.now) × (self.end + i + L ≤ length self.v.now + 1) × (self.up + i + length self.h.now + L ≤ length self.v.now + 1) }
        requires by_index { (k : ℕ) → i ≤ k → nat_abs (at0 y.old k) ≤ (127 - length self.h.now) * 2 ^ 56 }
        ensures { Written (pos 0) (λ l. i + l) (λ l. at0 y.old (i + l) +ℤ arms self.entry.h.now (copied self.entry.v.now)
            from (self.entry.end + (i + l) - 1) (self.entry.up + (i + l)) (length self.entry.h.now - from)) L y.old y.new }
    {
        let mut s = [0i64; L];
        s.copy_from_slice(&y[i..i + L]);
        let t = self.at(i).pairs(s, from);
        y[i..i + L].copy_from_slice(&t);
    }

    // Every place k of y gains the taps from place `from` on, those of the place k further on. Out of line, for all
    // filters.
    #[inline(never)]
    pub fn add(self, y: &mut [i64], from: usize)
        requires from_in_bounds { (from ≤ length self.h.now) × (self.end + length y.old ≤ length self.v.now + 1)
            × (self.up + length self.h.now + length y.old ≤ length self.v.now + 1) × (length self.v.now ≤ 512) }
        requires small { Small ((127 - length self.h.now) * 2 ^ 56) y.old }
        ensures { Filled (λ k. at0 y.old k +ℤ arms self.entry.h.now (copied self.entry.v.now) from (self.entry.end + k - 1) (self.entry.up + k) (length self.entry.h.now - from)) y.old y.new }
    {
        let blocks = y.len() / 14;
        for b in 0..blocks {
            self.add_block::<14>(y, 14 * b, from);
        }
        for k in 14 * blocks..y.len() {
            self.add_block::<1>(y, k, from);
        }
    }
}
