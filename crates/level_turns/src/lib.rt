// The report of the frames that a reader gives, one frame ahead: each is told with the frames before and after it.
#![tactic(auto)]

ghost use Rattle.std.specs.Prelude.{◌≡◌, ◌+◌, ◌*◌, ◌<◌, ◌≤◌, length, IfOk, IfSome, replicate};
ghost use Rattle.std.specs.Io.KnownBytes.{Appends};
ghost use Rattle.reference.specs.Frames.{frame_length, run_of};
ghost use Rattle.reference.specs.Refusals.{accepted, decide, held_places};
ghost use Rattle.overs.specs.Overs.{none};
ghost use Rattle.levels.specs.Levels.{piece_lines};
ghost use Rattle.level_frames.specs.Report.{lines_of, text_by};
ghost use Rattle.level_frames.specs.inner.Told.{OneLong};
ghost use Rattle.level_turns.specs.inner.Turns as hand;
ghost use Rattle.level_turns.specs.inner.Turns.{FrameCounted, Turned, StreamTold, moment};

use level_frames::{FewChannels, Report};
use level_input::{fill, move_on, write_first};
use reference::{Converter, Run};
use std::io;
use std::io::{Read, Write};

// Frames that are told, and bytes that have come of the frame at hand.
#[derive(Clone, Copy)]
struct Came {
    frames: u64,
    left: usize,
}

// Three frames of a size: the one before, the one at hand, of which `came.left` bytes have come, and the one after.
#[derive(Drop)]
struct Window<'a> {
    size: usize,
    came: Came,
    three: &'a mut [u8],
    ghost long: { length three.now ≡ 3 * size },
}

// The frame in the middle of the three, under its number. Whether one comes after it shows only in what was read: the
// buffer has its place all the same.
#[tactic(auto, unfolding(crate::specs::inner::Turns::at_hand))]
fn at_hand<'a>(number: u64, has_after: bool, size: usize, three: &'a [u8]) -> Run<'a>
    requires { length three.now ≡ 3 * size }
    ensures { run_of result ≡ hand.at_hand number has_after size three.now }
{
    Run {
        has_before: number > 0,
        before: &three[..size],
        frames: &three[size..2 * size],
        has_after,
        after: &three[2 * size..],
    }
}

// Tells a frame and passes its lines on.
fn tell<'a, W: Write>(report: &mut Report, number: u64, run: Run<'a>, to: &mut W) -> io::Result<()>
    requires one_long { OneLong (frame_length report.old.of.conv.channels) (run_of run) }
    requires few { (number < 100000000000000) × (report.old.clipped ≤ 28224 * number) }
    ensures told { IfOk result (λ _. FrameCounted report.old.of.conv number (run_of run.entry) report.old.clipped report.old.states report.new.clipped report.new.states) }
    ensures wrote { IfOk result (λ _. Appends (W.contents to.old) (W.contents to.new) (piece_lines report.old.of.conv number report.old.states (run_of run.entry))) }
    ensures few { IfOk result (λ _. (report.new.of ≡ report.old.of) × (report.new.clipped ≤ 28224 * (number + 1))) }
{
    let mut text = [0u8; 864];
    let n = report.told(number, run, &mut text);
    write_first(to, &text, n)
}

impl<'a> Window<'a> {
    // Reads the frame after, tells the one at hand and moves on.
    fn turn<R: Read, W: Write>(
        &mut self,
        from: &mut R,
        to: &mut W,
        report: &mut Report,
    ) -> io::Result<()>
        requires whole { (self.old.size ≡ frame_length report.old.of.conv.channels) × (self.old.came.left ≡ self.old.size) }
        requires few { (self.old.came.frames < 100000000000000) × (report.old.clipped ≤ 28224 * self.old.came.frames) }
        ensures turned { IfOk result
            (λ _. Turned report.old.of.conv self.old.size (moment self.old.came.frames report.old.clipped report.old.states self.old.came.left self.old.three.now)
            (moment self.new.came.frames report.new.clipped report.new.states self.new.came.left self.new.three.now)
            (R.remaining from.old) (R.remaining from.new) (W.contents to.old) (W.contents to.new)) }
        ensures same { IfOk result (λ _. (self.new.size ≡ self.old.size) × (report.new.of ≡ report.old.of) × (report.new.clipped ≤ 28224 * self.new.came.frames)) }
    {
        let size = self.size;
        let frames = self.came.frames;
        let three = &mut *self.three;
        let left = fill(from, &mut three[2 * size..])?;
        let run = at_hand(frames, left == size, size, three);
        tell(report, frames, run, to)?;
        move_on(three, size);
        self.came = Came {
            frames: frames + 1,
            left,
        };
        Ok(())
    }
}

// All frames, from the first one on.
fn turns<R: Read, W: Write>(report: &mut Report, from: &mut R, to: &mut W) -> io::Result<Came>
    requires { (report.old.clipped ≡ 0) × (report.old.states ≡ replicate 6 none) }
    ensures { IfOk result (λ came. StreamTold report.old.of.conv came.frames report.new.clipped came.left (R.remaining from.old) (R.remaining from.new) (W.contents to.old) (W.contents to.new)) }
{
    let size = report.of.size();
    let mut three = [0u8; 28224];
    let left = fill(from, &mut three[size..2 * size])?;
    let mut window = Window {
        size,
        came: Came { frames: 0, left },
        three: &mut three[..3 * size],
    };
    // A loop has to end, and nothing says that an input does: so there is a number of turns that no input uses up.
    for _ in 0..100_000_000_000_000u64 {
        if window.came.left != size {
            return Ok(window.came);
        }
        window.turn(from, to, report)?;
    }
    Ok(window.came)
}

// The report of the frames that a reader gives, one or two channels.
pub fn report_frames<R: Read, W: Write>(conv: Converter, from: &mut R, to: &mut W) -> io::Result<()>
    requires { (decide (held_places conv) ≡ accepted) × (conv.channels ≤ 2) }
    ensures { IfOk result
        (λ _. IfSome (R.remaining from.old) (λ input. length input < 100000000000000 * frame_length conv.channels
        → Appends (W.contents to.old) (W.contents to.new) (text_by conv input (lines_of conv input)))) }
{
    let of = FewChannels { conv };
    let mut report = Report {
        of,
        clipped: 0,
        states: [None; 6],
    };
    let came = turns(&mut report, from, to)?;
    if came.left < of.size() {
        let mut text = [0u8; 144];
        let n = level_frames::ending(came.left, came.frames, report.clipped, &mut text);
        return write_first(to, &text, n);
    }
    Ok(())
}
