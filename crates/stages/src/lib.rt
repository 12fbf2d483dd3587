// Steps that the routes share: v from bytes, half the rate, and arrays moved and interleaved.
#![tactic(auto)]

ghost use Rattle.std.specs.Prelude.{◌≡◌, ℕ, ◌+◌, ◌-◌, ◌*◌, ◌^◌, ◌≤◌, ◌<◌, List, ℤ, pos, length, get_or};
ghost use Rattle.numbers.specs.inner.Lists.{Held};
ghost use Rattle.numbers.specs.inner.Parts.{interleaved};
ghost use Rattle.reference.specs.Rounding.{R};
ghost use Rattle.reference.specs.Taps.{S1};
ghost use Rattle.reference.specs.Stages.{v};
ghost use Rattle.tables.specs.Tables.{ByteTables};
ghost use Rattle.lanes.specs.inner.Lanes.{Small, Filled, Low};
ghost use Rattle.filters.specs.inner.Filters.{same_rate};
ghost use Rattle.band.specs.inner.Bands.{odd_sizes};
ghost use Rattle.routes.specs.inner.Routes.{HalvedFilter, halves_of};

mod buffers;

pub use buffers::Buffers;

// v(i), v(i + 1), .., from the bytes around them, those from position 2i - 19 on: u(2i), u(2i + 2), .. go to the same
// places first, u(2i - 15), u(2i - 13), .. to `odd`. The half band's sizes are lent.
#[tactic(auto, using(crate::proofs::Entries::S1_small))]
pub fn half_band(
    tables: &[i32],
    sizes: &[u32],
    bytes: &[u8],
    odd: &mut [i64],
    biased: &mut [u64],
    out: &mut [i64],
)
    requires lent { sizes.now ≡ odd_sizes }
    requires byte_tables { ByteTables S1 8 tables.now }
    requires out_len_bound { (length out.old ≤ 232) × (length odd.old ≡ length out.old + 15) × (length biased.old ≡ 456) × (length bytes.now ≡ 2 * length out.old + 36) }
    requires low { Low biased.old }
    ensures still_low { Low biased.new }
    ensures small { Small (2 ^ 27) out.new }
    ensures by_index { (β : ℕ → ℕ) (i : ℕ) → 10 ≤ i → Held 0 β (2 * i - 19) (length bytes.now) bytes.now → Held (pos 0) (v β) i (length out.old) out.new }
{
    first_stage::first_stage::<4>(tables, bytes, 15, 2, out);
    first_stage::first_stage::<4>(tables, bytes, 0, 2, odd);
    band::half(out, sizes, odd, biased);
}

// n values of an array, those from place `by` on, become its first; the places past them keep theirs.
pub fn shift(x: &mut [i64], by: usize, n: usize)
    requires { by + n ≤ length x.old }
    ensures by_index { (k : ℕ) → k < n → get_or x.new k (pos 0) ≡ get_or x.old (k + by) (pos 0) }
    ensures by_index_2 { (k : ℕ) → n ≤ k → get_or x.new k (pos 0) ≡ get_or x.old k (pos 0) }
{
    x.copy_within(by..by + n, 0);
}

// Two arrays in turn.
pub fn interleave(even: &[i64], odd: &[i64], out: &mut [i64])
    requires { (length odd.now ≡ length even.now) × (length out.old ≡ 2 * length even.now) × (length out.old ≤ 512) }
    ensures { Held (pos 0) (interleaved even.now odd.now) 0 (length out.old) out.new }
{
    for k in 0..even.len() {
        out[2 * k] = even[k];
        out[2 * k + 1] = odd[k];
    }
}

// Half the rate, with a filter whose even taps come first in h, then the odd ones: place i of y is around place 2i + M
// of x.
#[inline(always)]
pub fn halved(h: &[i64], x: &[i64], biased: &mut [u64], second: &mut [u64], y: &mut [i64])
    requires halved_filter { HalvedFilter h.now }
    requires low { Low biased.old × Low second.old × (length biased.old ≡ 456) × (length second.old ≡ 200) }
    requires h_in_bounds { (2 * (length y.old + length h.now) ≤ length x.now + 3) × (length x.now ≤ 400) }
    requires small { Small (2 ^ 27) x.now }
    ensures filled { (F : List ℤ) → h.now ≡ halves_of F → Filled (λ i. R (same_rate F x.now (2 * i)) 24) y.old y.new }
    ensures still_low { Low biased.new × Low second.new }
{
    let n = h.len();
    let e = (n + 1) / 2;
    filters::dec2(y, &h[0..e], &h[e..n], x, biased, second);
}
