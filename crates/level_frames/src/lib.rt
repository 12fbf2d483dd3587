// What the level report tells of a frame and at its end, as the first bytes of a text.
#![tactic(auto)]

ghost use Rattle.std.specs.Prelude.{◌≡◌, ◌+◌, ◌*◌, ◌<◌, ◌≤◌, length};
ghost use Rattle.reference.specs.Frames.{frame_length, run_of};
ghost use Rattle.text.specs.Text.{Printed};
ghost use Rattle.level_frames.specs.Report as whole;
ghost use Rattle.level_frames.specs.inner.Told.{PieceAdded, OneLong};

use overs::Progress;
use reference::Run;

mod few;

pub use few::FewChannels;

// What is told of the frames so far: their clips, and what is in progress after them in each channel.
#[derive(Clone, Copy)]
pub struct Report {
    pub of: FewChannels,
    pub clipped: u64,
    pub states: [Progress; 6],
}

impl Report {
    // Tells a frame: its lines are the first bytes of the text, and the answer is their length.
    pub fn told<'a>(&mut self, number: u64, run: Run<'a>, text: &mut [u8]) -> usize
        requires one_long { OneLong (frame_length self.old.of.conv.channels) (run_of run) }
        requires few { (number < 100000000000000) × (self.old.clipped ≤ 28224 * number) × (864 ≤ length text.old) }
        ensures told { PieceAdded self.old.of.conv number (run_of run.entry) self.old.clipped self.old.states text.old self.new.clipped self.new.states text.new result }
        ensures few { (self.new.of ≡ self.old.of) × (self.new.clipped ≤ 28224 * (number + 1)) × (result ≤ 864) }
    {
        let of = self.of;
        let states = self.states;
        let mut samples = [0i32; 9408];
        let samples = &mut samples[..of.items()];
        match levels::frame_report(of.conv, number, states, run, samples, text) {
            Ok(r) => {
                let states = r.states;
                self.clipped += r.clipped;
                self.states = states;
                r.length
            }
            // Not with a frame that is accepted.
            Err(_) => 0,
        }
    }
}

// The last line of so many frames and clips, or the refusal of bytes that are left over; the answer is its length.
#[tactic(auto, unfolding(crate::specs::Report::ending))]
pub fn ending(left: usize, frames: u64, clipped: u64, text: &mut [u8]) -> usize
    requires { 144 ≤ length text.old }
    ensures printed { Printed (whole.ending left frames clipped) text.old 0 text.new result }
    ensures upper_bound { result ≤ 144 }
{
    if left == 0 {
        return level_lines::last_line(text, 0, frames, clipped);
    }
    level_lines::refused_line(text, 0, 4)
}
