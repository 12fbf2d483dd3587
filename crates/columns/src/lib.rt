// Numbers right-aligned in columns, put into a lent slice.
#![tactic(auto)]

ghost use Rattle.std.specs.Prelude.{◌≡◌, ◌+◌, ◌≤◌, length, replicate};
ghost use Rattle.text.specs.Text as texts;
ghost use Rattle.text.specs.inner.Writing.{Prints};
ghost use Rattle.columns.specs.Columns.{column, cell, level_text};

use text::Text;

// How many digits n has.
pub fn digits(n: u64) -> usize
    ensures { (result ≡ length (texts.decimal n)) × (result ≤ 20) }
{
    if n < 10 { 1 } else { digits(n / 10) + 1 }
}

// How many characters a channel's lowest or highest has, its sign counted.
pub fn width_of(level: Option<i64>) -> usize
    ensures { result ≡ length (level_text level) }
{
    match level {
        None => 1,
        Some(z) => digits(z.unsigned_abs()) + usize::from(z < 0),
    }
}

// n blanks.
pub fn put_blanks(text: &mut Text, n: usize)
    requires { text.old.at + n ≤ length text.old.out.now }
    ensures { Prints (replicate n 32) text.old text.new }
{
    let end = text.at + n;
    text.out[text.at..end].fill(b' ');
    text.at = end;
}

// A number in a column.
pub fn put_number(text: &mut Text, width: usize, n: u64)
    requires { (length (texts.decimal n) ≤ width) × (text.old.at + width ≤ length text.old.out.now) }
    ensures printed { Prints (column (cell width (texts.decimal n))) text.old text.new }
    ensures value { text.new.at ≡ text.old.at + width }
{
    put_blanks(text, width - digits(n));
    text.decimal(n);
}

// A channel's lowest or highest in a column of twelve; a hyphen where it has no samples.
pub fn put_level(text: &mut Text, level: Option<i64>)
    requires { (length (level_text level) ≤ 12) × (text.old.at + 12 ≤ length text.old.out.now) }
    ensures printed { Prints (column (cell 12 (level_text level))) text.old text.new }
    ensures value { text.new.at ≡ text.old.at + 12 }
{
    put_blanks(text, 12 - width_of(level));
    match level {
        None => text.put(b"-"),
        Some(z) => text.signed(z),
    }
}
