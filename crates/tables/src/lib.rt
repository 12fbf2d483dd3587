// Tap tables of tables.rs (F40 is `reference::Filter::built_in`), and the byte tables that `lut` makes of its first
// two. A `const` array that is indexed is made anew at each use: a caller binds a table once, by these functions, and
// lends it.
#![tactic(auto)]

ghost use Rattle.std.specs.Prelude.{◌≡◌};
ghost use Rattle.reference.specs.Taps.{S1, S1_WIDE, F30, F80};
ghost use Rattle.tables.specs.Tables.{ByteTables};

mod bytes;
mod taps;

// Low-pass of Low.
#[tactic(auto, unfolding(reference::specs::Taps::F30))]
pub fn f30() -> [i32; 81]
    ensures { result ≡ F30 }
{
    taps::F30
}

// Low-pass of Wide at 176,400.
#[tactic(auto, unfolding(reference::specs::Taps::F80))]
pub fn f80() -> [i32; 117]
    ensures { result ≡ F80 }
{
    taps::F80
}

// The eight byte tables of S1, one after the other.
pub fn s1_tables() -> [i32; 2048]
    ensures { ByteTables S1 8 result }
{
    bytes::S1_TABLES
}

// The twelve byte tables of S1_WIDE.
pub fn s1_wide_tables() -> [i32; 3072]
    ensures { ByteTables S1_WIDE 12 result }
{
    bytes::S1_WIDE_TABLES
}
