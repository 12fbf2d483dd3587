// The arrays of a channel's filters, kept from block to block.
ghost use Rattle.std.specs.Prelude.{◌≡◌, ℕ, ◌+◌, ◌*◌, ◌-◌, ◌^◌, ◌≤◌, ℤ, pos, length, get_or, replicate};
ghost use Rattle.numbers.specs.inner.Lists.{Held};
ghost use Rattle.reference.specs.Taps.{S1, S1_WIDE};
ghost use Rattle.reference.specs.Stages.{u, v};
ghost use Rattle.tables.specs.Tables.{ByteTables};
ghost use Rattle.lanes.specs.inner.Lanes.{Small, Low};
ghost use Rattle.band.specs.inner.Bands.{odd_sizes};

// x has what the last filter reads, v of Standard and Low, u of Wide; `kept` has the values of w that are interleaved
// at 352,800. In front both keep their history, the values before a block that its filters read. `odd` is scratch,
// and `biased` and `second` are lent to the filters for their copies: arrays made for each block would be zeroed each
// time. The half band's sizes stand here, where the compiler does not see their values: of taps that it sees it makes
// products that take longer.
#[derive(Drop)]
pub struct Buffers {
    pub odd: [i64; 247],
    pub x: [i64; 512],
    pub kept: [i64; 184],
    pub biased: [u64; 456],
    pub second: [u64; 200],
    pub sizes: [u32; 8],
    ghost lent: { sizes ≡ odd_sizes },
    ghost x_small: { Small (2 ^ 27) x },
    ghost kept_small: { Small (2 ^ 29) kept },
    ghost biased_low: { Low biased },
    ghost second_low: { Low second },
}

// n values of v to x, after its first m. A part of an array is lent here and not in the methods below: proofs have no
// rule for lending a part of a field beside a ghost field, and none for two parts at once.
#[inline(always)]
fn put_v(
    tables: &[i32],
    sizes: &[u32],
    bytes: &[u8],
    odd: &mut [i64],
    biased: &mut [u64],
    x: &mut [i64],
    m: usize,
    n: usize,
)
    requires lent { sizes.now ≡ odd_sizes }
    requires byte_tables { ByteTables S1 8 tables.now }
    requires room { (n ≤ 232) × (m + n ≤ length x.old) × (length odd.old ≡ 247) × (length biased.old ≡ 456) × (length bytes.now ≡ 2 * n + 36) }
    requires low { Low biased.old }
    requires small { Small (2 ^ 27) x.old }
    ensures still_low { Low biased.new }
    ensures small_2 { Small (2 ^ 27) x.new }
    ensures held { (β : ℕ → ℕ) (i : ℕ) → 10 ≤ i + m → Held 0 β (2 * (i + m) - 19) (2 * n + 36) bytes.now → Held (pos 0) (v β) i m x.old → Held (pos 0) (v β) i (m + n) x.new }
    ensures rest { (k : ℕ) → m + n ≤ k → get_or x.new k (pos 0) ≡ get_or x.old k (pos 0) }
{
    crate::half_band(
        tables,
        sizes,
        bytes,
        &mut odd[..n + 15],
        biased,
        &mut x[m..m + n],
    );
}

// n values of u of Wide to x, after its first m.
#[inline(always)]
#[tactic(auto, using(crate::proofs::Entries::S1_WIDE_small))]
fn put_u(tables: &[i32], bytes: &[u8], x: &mut [i64], m: usize, n: usize)
    requires byte_tables { ByteTables S1_WIDE 12 tables.now }
    requires room { (n ≤ 400) × (m + n ≤ length x.old) × (length bytes.now ≡ n + 11) }
    requires small { Small (2 ^ 27) x.old }
    ensures small_2 { Small (2 ^ 27) x.new }
    ensures held { (β : ℕ → ℕ) (i : ℕ) → 6 ≤ i + m → Held 0 β (i + m - 6) (n + 11) bytes.now → Held (pos 0) (u S1_WIDE β) i m x.old → Held (pos 0) (u S1_WIDE β) i (m + n) x.new }
    ensures rest { (k : ℕ) → m + n ≤ k → get_or x.new k (pos 0) ≡ get_or x.old k (pos 0) }
{
    first_stage::first_stage::<6>(tables, bytes, 0, 1, &mut x[m..m + n]);
}

impl Buffers {
    // Zeros.
    pub fn new() -> Buffers
        ensures { (result.odd ≡ replicate 247 (pos 0)) × (result.x ≡ replicate 512 (pos 0)) × (result.kept ≡ replicate 184 (pos 0)) }
    {
        Buffers {
            odd: [0; 247],
            x: [0; 512],
            kept: [0; 184],
            biased: [0; 456],
            second: [0; 200],
            sizes: band::half_sizes(),
        }
    }

    // n values of v, after a history of m.
    #[inline(always)]
    pub fn bring_v(&mut self, tables: &[i32], bytes: &[u8], m: usize, n: usize)
        requires byte_tables { ByteTables S1 8 tables.now }
        requires room { (n ≤ 232) × (m + n ≤ 512) × (length bytes.now ≡ 2 * n + 36) }
        ensures kept { self.new.kept ≡ self.old.kept }
        ensures held { (β : ℕ → ℕ) (i : ℕ) → 10 ≤ i + m → Held 0 β (2 * (i + m) - 19) (2 * n + 36) bytes.now → Held (pos 0) (v β) i m self.old.x → Held (pos 0) (v β) i (m + n) self.new.x }
        ensures rest { (k : ℕ) → m + n ≤ k → get_or self.new.x k (pos 0) ≡ get_or self.old.x k (pos 0) }
    {
        put_v(
            tables,
            &self.sizes,
            bytes,
            &mut self.odd,
            &mut self.biased,
            &mut self.x,
            m,
            n,
        );
    }

    // n values of u of Wide, after a history of m.
    #[inline(always)]
    pub fn bring_u(&mut self, tables: &[i32], bytes: &[u8], m: usize, n: usize)
        requires byte_tables { ByteTables S1_WIDE 12 tables.now }
        requires room { (n ≤ 400) × (m + n ≤ 512) × (length bytes.now ≡ n + 11) }
        ensures others { (self.new.odd ≡ self.old.odd) × (self.new.kept ≡ self.old.kept) }
        ensures held { (β : ℕ → ℕ) (i : ℕ) → 6 ≤ i + m → Held 0 β (i + m - 6) (n + 11) bytes.now → Held (pos 0) (u S1_WIDE β) i m self.old.x → Held (pos 0) (u S1_WIDE β) i (m + n) self.new.x }
        ensures rest { (k : ℕ) → m + n ≤ k → get_or self.new.x k (pos 0) ≡ get_or self.old.x k (pos 0) }
    {
        put_u(tables, bytes, &mut self.x, m, n);
    }

    // The n values of x from place `by` on are the next block's history.
    #[inline(always)]
    pub fn move_on(&mut self, by: usize, n: usize)
        requires { by + n ≤ 512 }
        ensures others { (self.new.odd ≡ self.old.odd) × (self.new.kept ≡ self.old.kept) }
        ensures held { (S : ℕ → ℤ) (i : ℕ) → Held (pos 0) S i (n + by) self.old.x → Held (pos 0) S (i + by) n self.new.x }
        ensures rest { (k : ℕ) → n ≤ k → get_or self.new.x k (pos 0) ≡ get_or self.old.x k (pos 0) }
    {
        crate::shift(&mut self.x, by, n);
    }
}
