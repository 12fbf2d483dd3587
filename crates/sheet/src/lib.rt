// The level sheet for the sleeve, from a conversion's statistics.
#![tactic(auto)]

ghost use Rattle.std.specs.Prelude.{◌≡◌, false, ◌+◌, ◌*◌, ◌<◌, ◌≤◌, length};
ghost use Rattle.numbers.specs.Lists.{tabulate};
ghost use Rattle.reference.specs.Refusals.{decide, decision};
ghost use Rattle.text.specs.Text.{joined, decimal};
ghost use Rattle.text.specs.inner.Writing.{Prints};
ghost use Rattle.columns.specs.Columns.{line, too_wide};
ghost use Rattle.sheet.specs.Sheet as sheets;
ghost use Rattle.sheet.specs.Sheet.{channel_cells, numbered, channel_line, sum_line, sheet, some_below, sheet_too_wide};
ghost use Rattle.sheet.specs.Promises.{sheet_length, sheet_places, SheetPromise};

use reference::{ChannelStats, ConvertStats, PcmError};
use text::Text;

#[tactic(auto, unfolding(crate::specs::Sheet::lowest))]
fn lowest(channel: ChannelStats) -> Option<i64>
    ensures { result ≡ sheets.lowest channel.extremes }
{
    match channel.extremes {
        None => None,
        Some(e) => Some(e.lowest),
    }
}

#[tactic(auto, unfolding(crate::specs::Sheet::highest))]
fn highest(channel: ChannelStats) -> Option<i64>
    ensures { result ≡ sheets.highest channel.extremes }
{
    match channel.extremes {
        None => None,
        Some(e) => Some(e.highest),
    }
}

// Whether a number of a channel is too wide for its column.
#[tactic(auto, using(crate::proofs::Widths::figures_wide))]
fn wide_channel(channel: ChannelStats) -> bool
    ensures { result ≡ too_wide (channel_cells channel) }
{
    columns::digits(channel.clipped) > 14
        || columns::width_of(lowest(channel)) > 12
        || columns::width_of(highest(channel)) > 12
}

// Whether a number of a printed channel is.
fn wide_channels(stats: ConvertStats, channels: usize) -> bool
    requires { channels ≤ 6 }
    ensures { result ≡ some_below (λ c. too_wide (channel_line stats c)) channels }
{
    let mut found = false;
    for c in 0..channels {
        found = found || wide_channel(stats.channels[c]);
    }
    found
}

// Whether a printed number is too wide for its column.
fn wide(stats: ConvertStats, channels: usize) -> bool
    requires { channels ≤ 6 }
    ensures { result ≡ sheet_too_wide channels stats }
{
    wide_channels(stats, channels) || columns::digits(stats.clips(channels)) > 14
}

// The line of channel c.
fn put_channel(text: &mut Text, c: usize, channel: ChannelStats)
    requires { (c < 6) × (too_wide (channel_cells channel) ≡ false) × (text.old.at + 43 ≤ length text.old.out.now) }
    ensures printed { Prints (line (numbered c channel)) text.old text.new }
    ensures value { text.new.at ≡ text.old.at + 43 }
{
    columns::put_number(text, 4, c as u64);
    columns::put_number(text, 14, channel.clipped);
    columns::put_level(text, lowest(channel));
    columns::put_level(text, highest(channel));
    text.put(b"\n");
}

// The lines of all channels.
fn put_channels(text: &mut Text, channels: usize, stats: ConvertStats)
    requires { (channels ≤ 6) × (some_below (λ c. too_wide (channel_line stats c)) channels ≡ false) × (text.old.at + 43 * channels ≤ length text.old.out.now) }
    ensures printed { Prints (joined (tabulate (λ c. line (channel_line stats c)) 0 channels)) text.old text.new }
    ensures value { text.new.at ≡ text.old.at + 43 * channels }
{
    for c in 0..channels {
        put_channel(text, c, stats.channels[c]);
    }
}

// The last line.
fn put_sum(text: &mut Text, sum: u64)
    requires { (length (decimal sum) ≤ 14) × (text.old.at + 43 ≤ length text.old.out.now) }
    ensures printed { Prints (line (sum_line sum)) text.old text.new }
    ensures value { text.new.at ≡ text.old.at + 43 }
{
    columns::put_blanks(text, 4);
    columns::put_number(text, 14, sum);
    columns::put_blanks(text, 24);
    text.put(b"\n");
}

// The sheet of numbers that fit their columns, into a list of its length.
fn fill(out: &mut [u8], channels: usize, stats: ConvertStats)
    requires { (channels ≤ 6) × (sheet_too_wide channels stats ≡ false) × (length out.old ≡ sheet_length channels) }
    ensures { out.new ≡ sheet channels stats }
{
    let mut text = Text { out, at: 0 };
    put_channels(&mut text, channels, stats);
    put_sum(&mut text, stats.clips(channels));
}

// Channels, length and numbers of a sheet.
fn fits(channels: u8, stats: ConvertStats, n: usize) -> Result<(), PcmError>
    ensures { decision result ≡ decide (sheet_places channels stats n) }
{
    if channels < 1 || channels > 6 {
        return Err(PcmError::Channels(channels));
    }
    let expected = 43 * (channels as usize + 1);
    if n != expected {
        return Err(PcmError::OutputBytes(n, expected));
    }
    if wide(stats, channels as usize) {
        return Err(PcmError::Sheet);
    }
    Ok(())
}

// The sheet of some statistics.
pub fn level_sheet(channels: u8, stats: ConvertStats, out: &mut [u8]) -> Result<(), PcmError>
    ensures { SheetPromise channels stats out.old out.new result }
{
    fits(channels, stats, out.len())?;
    fill(out, channels as usize, stats);
    Ok(())
}
