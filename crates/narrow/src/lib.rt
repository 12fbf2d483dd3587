// Standard and Low: a block of y from its bytes, a flat function a rate. x of the arrays holds v, `kept` the values of
// w that `between` reads at 352,800. The three stay apart: each is three calls, and asks and promises another rate's
// signal. So do their parameters: every rate is lent other parts of the bytes and of y, so that a struct of them would
// be made anew at each call.
#![tactic(auto)]

ghost use Rattle.std.specs.Prelude.{◌≡◌, ℕ, ◌+◌, ◌-◌, ◌*◌, ◌/◌, ◌%◌, ◌^◌, ◌≤◌, List, ℤ, pos, length};
ghost use Rattle.numbers.specs.inner.Lists.{Held};
ghost use Rattle.reference.specs.Taps.{S1};
ghost use Rattle.reference.specs.Stages.{M, v, w, y_narrow};
ghost use Rattle.reference.specs.declared.PcmRate.TheVariants.{Hz88200, Hz176400, Hz352800};
ghost use Rattle.tables.specs.Tables.{ByteTables};
ghost use Rattle.lanes.specs.inner.Lanes.{Small, Low};
ghost use Rattle.band.specs.inner.Bands.{odd_sizes};
ghost use Rattle.routes.specs.inner.Routes.{LowPass, HalvedFilter, halves_of};

use stages::Buffers;

// The values of w, and those between them, in turn: `kept` has w from 8 places before sample n's on. The half band's
// sizes and a place for a copy are lent.
fn between(sizes: &[u32], kept: &[i64], biased: &mut [u64], y: &mut [i64])
    requires lent { sizes.now ≡ odd_sizes }
    requires kept_len { (length kept.now ≡ 184) × (length y.old ≡ 336) }
    requires small { Small (2 ^ 29) kept.now }
    requires low { Low biased.old × (length biased.old ≡ 456) }
    ensures still_low { Low biased.new }
    ensures held { (F : List ℤ) (β : ℕ → ℕ) (n : ℕ) → 16 ≤ n → n % 2 ≡ 0 → Held (pos 0) (w F β) (n / 2 - 8) 184 kept.now → Held (pos 0) (y_narrow Hz352800 F β) n 336 y.new }
{
    let mut z = [0i64; 168];
    band::interp(&mut z, sizes, &kept[1..184], biased);
    stages::interleave(&kept[8..176], &z, y);
}

// The last k of the 184 values of w in `kept`, from k values of v after their history.
#[inline(always)]
#[tactic(auto, using(stages::proofs::Smalls::front_fit))]
fn newest(h: &[i64], x: &[i64], k: usize, biased: &mut [u64], kept: &mut [i64])
    requires low_pass { LowPass h.now }
    requires lengths { (k ≤ 184) × (length x.now ≡ 512) × (length kept.old ≡ 184) }
    requires small { Small (2 ^ 27) x.now }
    requires small_2 { Small (2 ^ 29) kept.old }
    requires low { Low biased.old × (length biased.old ≡ 456) }
    ensures still_low { Low biased.new }
    ensures small_3 { Small (2 ^ 29) kept.new }
    ensures held { (β : ℕ → ℕ) (i : ℕ) → M h.now ≤ i + 184 - k → Held (pos 0) (v β) (i + 184 - k - M h.now) (2 * M h.now + k) x.now
        → Held (pos 0) (w h.now β) i (184 - k) kept.old → Held (pos 0) (w h.now β) i 184 kept.new }
{
    let e = 2 * (h.len() - 1) + k;
    filters::fir1(&mut kept[184 - k..184], h, &x[..e], biased);
}

// At 88,200: h has the even taps, then the odd ones.
#[inline(always)]
pub fn narrow88(tables: &[i32], h: &[i64], bytes: &[u8], buffers: &mut Buffers, y: &mut [i64])
    requires byte_tables { ByteTables S1 8 tables.now }
    requires halved_filter { HalvedFilter h.now }
    requires lengths { (length bytes.now ≡ 372) × (length y.old ≡ 84) }
    ensures kept { buffers.new.kept ≡ buffers.old.kept }
    ensures held { (F : List ℤ) (β : ℕ → ℕ) (n : ℕ) → LowPass F → h.now ≡ halves_of F → 1000 ≤ n → Held 0 β (2 * (2 * n + M F) - 19) 372 bytes.now
        → Held (pos 0) (v β) (2 * n - M F) (2 * M F) buffers.old.x → Held (pos 0) (y_narrow Hz88200 F β) n 84 y.new × Held (pos 0) (v β) (2 * (n + 84) - M F) (2 * M F) buffers.new.x }
{
    let m = 2 * (h.len() - 1);
    buffers.bring_v(tables, bytes, m, 168);
    stages::halved(
        h,
        &buffers.x[..m + 168],
        &mut buffers.biased,
        &mut buffers.second,
        y,
    );
    buffers.move_on(168, m);
}

// At 176,400.
#[inline(always)]
#[tactic(auto, using(stages::proofs::Smalls::front_fit))]
pub fn narrow176(tables: &[i32], h: &[i64], bytes: &[u8], buffers: &mut Buffers, y: &mut [i64])
    requires byte_tables { ByteTables S1 8 tables.now }
    requires low_pass { LowPass h.now }
    requires lengths { (length bytes.now ≡ 372) × (length y.old ≡ 168) }
    ensures kept { buffers.new.kept ≡ buffers.old.kept }
    ensures held { (β : ℕ → ℕ) (n : ℕ) → 1000 ≤ n → Held 0 β (2 * (n + M h.now) - 19) 372 bytes.now → Held (pos 0) (v β) (n - M h.now) (2 * M h.now) buffers.old.x
        → Held (pos 0) (y_narrow Hz176400 h.now β) n 168 y.new × Held (pos 0) (v β) (n + 168 - M h.now) (2 * M h.now) buffers.new.x }
{
    let m = 2 * (h.len() - 1);
    buffers.bring_v(tables, bytes, m, 168);
    filters::fir1(y, h, &buffers.x[..m + 168], &mut buffers.biased);
    buffers.move_on(168, m);
}

// At 352,800: k values of w are new, 184 in a batch's first block and 168 in the others.
#[inline(always)]
pub fn narrow352(
    tables: &[i32],
    h: &[i64],
    bytes: &[u8],
    k: usize,
    buffers: &mut Buffers,
    y: &mut [i64],
)
    requires byte_tables { ByteTables S1 8 tables.now }
    requires low_pass { LowPass h.now }
    requires le_k { (168 ≤ k) × (k ≤ 184) × (length bytes.now ≡ 2 * k + 36) × (length y.old ≡ 336) }
    ensures { (β : ℕ → ℕ) (n : ℕ) → 1000 ≤ n → n % 2 ≡ 0 → Held 0 β (2 * (n / 2 + 176 - k + M h.now) - 19) (2 * k + 36) bytes.now
        → Held (pos 0) (v β) (n / 2 + 176 - k - M h.now) (2 * M h.now) buffers.old.x → Held (pos 0) (w h.now β) (n / 2 - 8) (184 - k) buffers.old.kept
        → Held (pos 0) (y_narrow Hz352800 h.now β) n 336 y.new
        × Held (pos 0) (v β) (n / 2 + 176 - M h.now) (2 * M h.now) buffers.new.x × Held (pos 0) (w h.now β) (n / 2 + 160) 16 buffers.new.kept }
{
    let m = 2 * (h.len() - 1);
    buffers.bring_v(tables, bytes, m, k);
    newest(h, &buffers.x, k, &mut buffers.biased, &mut buffers.kept);
    between(&buffers.sizes, &buffers.kept, &mut buffers.biased, y);
    buffers.move_on(k, m);
    stages::shift(&mut buffers.kept, 168, 16);
}
