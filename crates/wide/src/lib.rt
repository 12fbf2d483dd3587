// Wide: a block of y from its bytes, a flat function a rate. x of the arrays holds u. The two stay apart: each is three
// calls, by another filter, and promises another rate's signal. Their parameters stay apart as those of narrow do: each
// rate is lent other parts of the bytes and of y.
#![tactic(auto)]

ghost use Rattle.std.specs.Prelude.{◌≡◌, ℕ, ◌+◌, ◌-◌, ◌*◌, ◌≤◌, pos, length};
ghost use Rattle.numbers.specs.inner.Lists.{Held};
ghost use Rattle.reference.specs.Taps.{S1_WIDE, F40, F80};
ghost use Rattle.reference.specs.Stages.{u, y_wide};
ghost use Rattle.reference.specs.declared.PcmRate.TheVariants.{Hz176400, Hz352800};
ghost use Rattle.tables.specs.Tables.{ByteTables};
ghost use Rattle.routes.specs.inner.Routes.{halves_of};

use stages::Buffers;

// At 176,400: h has the even taps, then the odd ones.
#[inline(always)]
pub fn wide176(tables: &[i32], h: &[i64], bytes: &[u8], buffers: &mut Buffers, y: &mut [i64])
    requires byte_tables { ByteTables S1_WIDE 12 tables.now }
    requires h_value { h.now ≡ halves_of F80 }
    requires lengths { (length bytes.now ≡ 179) × (length y.old ≡ 84) }
    ensures others { (buffers.new.odd ≡ buffers.old.odd) × (buffers.new.kept ≡ buffers.old.kept) }
    ensures held { (β : ℕ → ℕ) (n : ℕ) → 1000 ≤ n → Held 0 β (2 * n + 110) 179 bytes.now → Held (pos 0) (u S1_WIDE β) (2 * n - 116) 232 buffers.old.x
        → Held (pos 0) (y_wide Hz176400 β) n 84 y.new × Held (pos 0) (u S1_WIDE β) (2 * (n + 84) - 116) 232 buffers.new.x }
{
    buffers.bring_u(tables, bytes, 232, 168);
    stages::halved(
        h,
        &buffers.x[..400],
        &mut buffers.biased,
        &mut buffers.second,
        y,
    );
    buffers.move_on(168, 232);
}

// At 352,800.
#[inline(always)]
pub fn wide352(tables: &[i32], h: &[i64], bytes: &[u8], buffers: &mut Buffers, y: &mut [i64])
    requires byte_tables { ByteTables S1_WIDE 12 tables.now }
    requires h_value { h.now ≡ F40 }
    requires lengths { (length bytes.now ≡ 347) × (length y.old ≡ 336) }
    ensures others { (buffers.new.odd ≡ buffers.old.odd) × (buffers.new.kept ≡ buffers.old.kept) }
    ensures held { (β : ℕ → ℕ) (n : ℕ) → 1000 ≤ n → Held 0 β (n + 54) 347 bytes.now → Held (pos 0) (u S1_WIDE β) (n - 60) 120 buffers.old.x
        → Held (pos 0) (y_wide Hz352800 β) n 336 y.new × Held (pos 0) (u S1_WIDE β) (n + 336 - 60) 120 buffers.new.x }
{
    buffers.bring_u(tables, bytes, 120, 336);
    filters::fir1(y, h, &buffers.x[..456], &mut buffers.biased);
    buffers.move_on(336, 120);
}
