// The level report over readers and a writer: it reads the line and the frames, and writes the lines.
#![tactic(auto)]

ghost use Rattle.std.specs.Prelude.{◌*◌, ◌<◌, length, IfOk, IfSome};
ghost use Rattle.reference.specs.Frames.{frame_length};
ghost use Rattle.level_stream.specs.Printed.{ReportAppended};

use std::io;
use std::io::{Read, Write};

// Reads the line from one reader and the frames from another, which may give the rest of the same input, and writes the
// report to a writer. A read or a write that fails ends the report where it is, and its error is the answer.
pub fn report<L: Read, F: Read, W: Write>(
    line_from: &mut L,
    frames_from: &mut F,
    to: &mut W,
) -> io::Result<()>
    ensures { IfOk result
        (λ _. IfSome (L.remaining line_from.old)
        (λ first. IfSome (F.remaining frames_from.old) (λ rest. length rest < 100000000000000 * frame_length 1 → ReportAppended first rest (W.contents to.old) (W.contents to.new)))) }
{
    match level_start::start(line_from, to)? {
        Some(conv) => level_turns::report_frames(conv, frames_from, to),
        None => Ok(()),
    }
}
