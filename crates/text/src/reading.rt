// Numbers read, digit by digit.
ghost use Rattle.std.specs.Prelude.{◌↔◌, List, [], ◌∷◌, ◌++◌, ℕ, ◌<◌, Some, IsTrue, length};
ghost use Rattle.text.specs.inner.Reading.{NumberRead};

// A number's first digit.
fn digit(byte: u8) -> Option<u32>
    ensures { NumberRead (byte ∷ []) result }
{
    match byte {
        b'0'..=b'9' => Some(u32::from(byte - b'0')),
        _ => None,
    }
}

// Whether a digit may come after a number: none comes after 0, nor after three.
fn goes_on(n: u32) -> bool
    ensures { IsTrue result ↔ ((0 < n) × (n < 100)) }
{
    0 < n && n < 100
}

// One digit more.
fn more(n: u32, byte: u8) -> Option<u32>
    ensures { (t : List ℕ) → 0 < length t → NumberRead t (Some n) → NumberRead (t ++ (byte ∷ [])) result }
{
    let digit = digit(byte)?;
    if goes_on(n) {
        Some(n * 10 + digit)
    } else {
        None
    }
}

// A number below 1000 to the text's end.
pub fn number(text: &[u8]) -> Option<u32>
    ensures { NumberRead text.now result }
{
    let (first, rest) = text.split_first()?;
    let mut n = digit(*first)?;
    for byte in rest {
        n = more(n, *byte)?;
    }
    Some(n)
}
