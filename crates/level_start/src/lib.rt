// The line of the level report: it is read, and the converter of its settings opened.
#![tactic(auto)]

ghost use Rattle.std.specs.Prelude.{◌≡◌, ◌≤◌, length, take, Some, None, IfOk, IfSome};
ghost use Rattle.std.specs.Io.KnownBytes.{Appends};
ghost use Rattle.reference.specs.Promises.{OpeningPromise};
ghost use Rattle.level_lines.specs.Lines.{refused_line};
ghost use Rattle.level_start.specs.inner.Usable.{Usable};
ghost use Rattle.level_start.specs.Begun.{read_settings, refused_settings};
ghost use Rattle.level_start.specs.inner.Begun.{leads_to, said, Begun, Starts};

use level_input::write_first;
use level_settings::LineSettings;
use reference::{Converter, Gain, PcmError, Settings};
use std::io;
use std::io::{Read, Write};

// Reads the line and opens the converter of its settings. Where they are not accepted it says why, and that is all.
pub fn start<R: Read, W: Write>(from: &mut R, to: &mut W) -> io::Result<Option<Converter>>
    ensures usable { IfOk result Usable }
    ensures starts { IfOk result (λ r. IfSome (R.remaining from.old) (λ input. Starts input r (W.contents to.old) (W.contents to.new))) }
{
    let mut line = [0u8; 23];
    match level_input::read_line(from, &mut line)? {
        Some(n) => settings(&line, n, to),
        None => refused_settings(to),
    }
}

#[tactic(auto, unfolding(crate::specs::Begun::refused_settings, text::specs::Text::printed, text::specs::Text::joined, text::specs::Text::text))]
fn refused_settings<W: Write>(to: &mut W) -> io::Result<Option<Converter>>
    ensures { IfOk result (λ r. (r ≡ None) × Appends (W.contents to.old) (W.contents to.new) refused_settings) }
{
    to.write_all(b"refused settings\n")?;
    Ok(None)
}

// The first n bytes are the line.
fn settings<W: Write>(line: &[u8], n: usize, to: &mut W) -> io::Result<Option<Converter>>
    requires { n ≤ length line.now }
    ensures usable { IfOk result Usable }
    ensures begun { IfOk result (λ r. Begun (take n line.now) r (W.contents to.old) (W.contents to.new)) }
{
    let first = level_settings::first_line(&line[..n]);
    match first {
        Some(s) => opened(s, to),
        None => refused_settings(to),
    }
}

fn opened<W: Write>(s: LineSettings, to: &mut W) -> io::Result<Option<Converter>>
    requires { s.channels ≤ 2 }
    ensures usable { IfOk result Usable }
    ensures leads { IfOk result (λ r. r ≡ leads_to (Some s)) }
    ensures wrote { IfOk result (λ _. Appends (W.contents to.old) (W.contents to.new) (said (Some s))) }
{
    match open(s) {
        Ok(conv) => Ok(Some(conv)),
        Err(e) => {
            refused(e.number(), to)?;
            Ok(None)
        }
    }
}

// Opens the converter of a line's settings.
#[tactic(auto, unfolding(crate::specs::Begun::read_settings))]
fn open(s: LineSettings) -> Result<Converter, PcmError>
    ensures { OpeningPromise (read_settings s) result }
{
    let db = std::num::nearest_i64_to_f64(i64::from(s.db));
    scarletbook_pcm::open(Settings {
        rate: s.rate,
        cutoff: s.cutoff,
        channels: s.channels,
        gain: Gain {
            db,
            linear: gain::db_to_linear(db),
        },
        filter: None,
    })
}

// A refusal by its number.
fn refused<W: Write>(number: u64, to: &mut W) -> io::Result<()>
    ensures wrote { IfOk result (λ _. Appends (W.contents to.old) (W.contents to.new) (refused_line number)) }
{
    let mut text = [0u8; 144];
    let n = level_lines::refused_line(&mut text, 0, number);
    write_first(to, &text, n)
}
