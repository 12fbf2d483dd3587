// Module 4: sums of look-ups in byte tables, over windows of bytes. Of the tables of S1 or S1_WIDE they are u: crate
// stages.
#![tactic(auto)]

ghost use Rattle.std.specs.Prelude.{◌≡◌, ◌+◌, ◌*◌, ◌≤◌, pos, length, get_or};
ghost use Rattle.numbers.specs.Sums.{sum_to, at0};
ghost use Rattle.numbers.specs.inner.Lists.{Held};
ghost use Rattle.first_stage.specs.inner.Windows.{SmallEntries, window_sum};

// One table for each byte of the window.
fn table_sum(tables: &[i32], window: &[u8]) -> i32
    requires small { SmallEntries tables.now }
    requires lengths { (length tables.now ≡ 256 * length window.now) × (length window.now ≤ 12) }
    ensures { result ≡ sum_to (length window.now) (λ j. at0 tables.now (256 * j + get_or window.now j 0)) }
{
    let mut sum: i32 = 0;
    for (j, byte) in window.iter().enumerate() {
        sum += tables[256 * j + usize::from(*byte)];
    }
    sum
}

// The sum over the window from byte `at` on, by 2 × H tables. H is a parameter of the type, 4 or 6, so that the loops
// are of known length and every table's place is a known number.
fn window<const H: usize>(tables: &[i32], bytes: &[u8], at: usize) -> i64
    requires small { SmallEntries tables.now }
    requires lengths { (length tables.now ≡ 256 * (2 * H)) × (H ≤ 6) × (at + 2 * H ≤ length bytes.now) × (length bytes.now ≤ 512) }
    ensures { result ≡ window_sum tables.now H bytes.now at }
{
    let end = at + 2 * H;
    i64::from(table_sum(tables, &bytes[at..end]))
}

// The sums of every step-th window, from byte `start` on. Four windows are summed in a turn: most bytes of each are
// loaded for the one before.
pub fn first_stage<const H: usize>(
    tables: &[i32],
    bytes: &[u8],
    start: usize,
    step: usize,
    out: &mut [i64],
)
    requires small { SmallEntries tables.now }
    requires lengths { (length tables.now ≡ 256 * (2 * H)) × (H ≤ 6) × (start + step * length out.old + 2 * H ≤ length bytes.now + step) × (length bytes.now ≤ 512) × (step ≤ 2) }
    ensures { Held (pos 0) (λ k. window_sum tables.now H bytes.now (start + step * k)) 0 (length out.old) out.new }
{
    let turns = out.len() / 4;
    for turn in 0..turns {
        let k = 4 * turn;
        let at = start + step * k;
        let a = window::<H>(tables, bytes, at);
        let b = window::<H>(tables, bytes, at + step);
        let c = window::<H>(tables, bytes, at + 2 * step);
        let d = window::<H>(tables, bytes, at + 3 * step);
        out[k] = a;
        out[k + 1] = b;
        out[k + 2] = c;
        out[k + 3] = d;
    }
    for k in 4 * turns..out.len() {
        out[k] = window::<H>(tables, bytes, start + step * k);
    }
}
