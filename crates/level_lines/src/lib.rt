// The lines that the level report prints. Each is given the list and the place, and no `Text`: its callers hold the
// list, and a `Text` would be made in each of them for this one call.
#![tactic(auto)]

ghost use Rattle.std.specs.Prelude.{◌+◌, ◌≤◌, length};
ghost use Rattle.text.specs.Text.{Printed};
ghost use Rattle.level_lines.specs.Lines as lines;

use text::Text;

// What is told of one channel of a frame.
#[derive(Clone, Copy)]
pub struct Level {
    pub clipped: u64,
    pub low: i32,
    pub high: i32,
    pub over: u64,
}

// Channel c of frame f.
pub fn level_line(out: &mut [u8], at: usize, f: u64, c: u64, level: Level) -> usize
    requires { at + 144 ≤ length out.old }
    ensures printed { Printed (lines.level_line f c level) out.old at out.new result }
    ensures upper_bound { result ≤ at + 144 }
{
    let mut text = Text { out, at };
    text.labelled(b"frame ", f);
    text.labelled(b" channel ", c);
    text.labelled(b" clipped ", level.clipped);
    text.labelled_signed(b" low ", level.low);
    text.labelled_signed(b" high ", level.high);
    text.labelled(b" over ", level.over);
    text.put(b"\n");
    text.at
}

// The last line: frames, and clips over all of them.
pub fn last_line(out: &mut [u8], at: usize, frames: u64, clips: u64) -> usize
    requires { at + 144 ≤ length out.old }
    ensures printed { Printed (lines.last_line frames clips) out.old at out.new result }
    ensures upper_bound { result ≤ at + 144 }
{
    let mut text = Text { out, at };
    text.labelled(b"frames ", frames);
    text.labelled(b" clipped ", clips);
    text.put(b"\n");
    text.at
}

// A refusal by its number.
pub fn refused_line(out: &mut [u8], at: usize, number: u64) -> usize
    requires { at + 144 ≤ length out.old }
    ensures printed { Printed (lines.refused_line number) out.old at out.new result }
    ensures upper_bound { result ≤ at + 144 }
{
    let mut text = Text { out, at };
    text.labelled(b"refused ", number);
    text.put(b"\n");
    text.at
}
