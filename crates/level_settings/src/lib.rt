// The level report's first line, which it reads.
#![tactic(auto)]

ghost use Rattle.level_settings.specs.Settings.{LineRead};

use reference::{Cutoff, PcmRate};
use text::split_once;

mod reading;

use reading::{cutoff_named, decibels, rate_named};

// What the first line sets.
#[derive(Clone, Copy)]
pub struct LineSettings {
    pub rate: PcmRate,
    pub cutoff: Cutoff,
    pub channels: u8,
    pub db: i32,
}

// Reads the first line, without its newline.
pub fn first_line(line: &[u8]) -> Option<LineSettings>
    ensures { LineRead line.now result }
{
    let (word, line) = split_once(line, b' ')?;
    let rate = rate_named(word)?;
    let (word, line) = split_once(line, b' ')?;
    let cutoff = cutoff_named(word)?;
    let (word, line) = split_once(line, b' ')?;
    let channels = reading::channels(word)?;
    let db = decibels(line)?;
    Some(LineSettings {
        rate,
        cutoff,
        channels,
        db,
    })
}
