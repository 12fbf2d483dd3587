// What the fields of the first line are taken for.
ghost use Rattle.std.specs.Prelude.{◌≡◌, ◌∷◌};
ghost use Rattle.level_settings.specs.inner.Settings as names;
ghost use Rattle.level_settings.specs.inner.Reading.{ChannelsRead, DecibelsRead};

use reference::{Cutoff, PcmRate};
use text::number;

// The words of a rate and, below, of a cutoff: three cases each, of different types. A table of words and values that
// both search would be longer than the cases.
#[tactic(auto, unfolding(crate::specs::inner::Settings::rate_named, crate::specs::Settings::rate_text, text::specs::Text::text))]
pub fn rate_named(word: &[u8]) -> Option<PcmRate>
    ensures { result ≡ names.rate_named word.now }
{
    if word == b"88200".as_slice() {
        Some(PcmRate::Hz88200)
    } else if word == b"176400".as_slice() {
        Some(PcmRate::Hz176400)
    } else if word == b"352800".as_slice() {
        Some(PcmRate::Hz352800)
    } else {
        None
    }
}

#[tactic(auto, unfolding(crate::specs::inner::Settings::cutoff_named, crate::specs::Settings::cutoff_text, text::specs::Text::text))]
pub fn cutoff_named(word: &[u8]) -> Option<Cutoff>
    ensures { result ≡ names.cutoff_named word.now }
{
    if word == b"standard".as_slice() {
        Some(Cutoff::Standard)
    } else if word == b"low".as_slice() {
        Some(Cutoff::Low)
    } else if word == b"wide".as_slice() {
        Some(Cutoff::Wide)
    } else {
        None
    }
}

// One or two channels.
pub fn channels(word: &[u8]) -> Option<u8>
    ensures { ChannelsRead word.now result }
{
    match number(word)? {
        1 => Some(1),
        2 => Some(2),
        _ => None,
    }
}

// Decibels below 0, by their size.
fn below(size: &[u8]) -> Option<i32>
    ensures { DecibelsRead (45 ∷ size.now) result }
{
    let n = number(size)?;
    if n == 0 || 120 < n {
        return None;
    }
    Some(-(n as i32))
}

const MOST_DECIBELS: u32 = 24;

// Whole decibels to the text's end: -120 to 24. There is no -0.
pub fn decibels(text: &[u8]) -> Option<i32>
    ensures { DecibelsRead text.now result }
{
    if let Some(size) = text.strip_prefix(b"-".as_slice()) {
        return below(size);
    }
    let n = number(text)?;
    if MOST_DECIBELS < n {
        return None;
    }
    Some(n as i32)
}
