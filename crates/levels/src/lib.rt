// The figures of the level report: a frame is converted with its neighbours, and the lines of its channels are printed.
#![tactic(auto)]

ghost use Rattle.std.specs.Prelude.{◌≡◌, ◌*◌, ◌/◌, ◌<◌, ◌≤◌, length, slice_index_or};
ghost use Rattle.numbers.specs.Lists.{tabulate};
ghost use Rattle.reference.specs.Frames.{run_of};
ghost use Rattle.reference.specs.Statistics.{channel_of};
ghost use Rattle.text.specs.Text.{joined, Printed};
ghost use Rattle.level_lines.specs.Lines.{level_line};
ghost use Rattle.overs.specs.Overs.{none};
ghost use Rattle.channel_levels.specs.inner.Channels.{level_of};
ghost use Rattle.levels.specs.Levels.{states_after};
ghost use Rattle.levels.specs.inner.Levels.{Bounded, FrameReported};

use channel_levels::level;
use overs::Progress;
use reference::{ConvertStats, Converter, PcmError, Run};

// What is told of a frame: how long its lines are, its clips over all channels, and what is in progress after it in
// each channel.
#[derive(Clone, Copy)]
pub struct Reported {
    pub length: usize,
    pub clipped: u64,
    pub states: [Progress; 6],
}

// The lines of all channels, from the start of `out` on, `states` being what is in progress before the frame: how long
// they are, and what is in progress after it.
fn lines(
    stats: ConvertStats,
    samples: &[i32],
    ch: usize,
    number: u64,
    states: [Progress; 6],
    out: &mut [u8],
) -> (usize, [Progress; 6])
    requires { (0 < ch) × (ch ≤ 6) × (ch ≤ length samples.now) × (length samples.now ≡ length samples.now / ch * ch) × (864 ≤ length out.old) }
    ensures printed { Printed (joined (tabulate (λ c. level_line number c (level_of (channel_of stats c).clipped samples.now ch c (slice_index_or states c none))) 0 ch)) out.old 0 out.new result.0 }
    ensures length_bound { (result.0 ≤ 864) × (result.1 ≡ states_after samples.now ch ch states) }
{
    let mut after = [None; 6];
    let mut at = 0usize;
    for c in 0..ch {
        let (level, next) = level(stats.channels[c].clipped, samples, ch, c, states[c]);
        after[c] = next;
        at = level_lines::level_line(out, at, number, c as u64, level);
    }
    (at, after)
}

// Converts one frame and prints its lines, `states` being what is in progress before it in each channel; a refused
// frame prints nothing.
pub fn frame_report<'a>(
    conv: Converter,
    number: u64,
    states: [Progress; 6],
    run: Run<'a>,
    samples: &mut [i32],
    out: &mut [u8],
) -> Result<Reported, PcmError>
    requires { 864 ≤ length out.old }
    ensures frame_reported { FrameReported conv number states (run_of run.entry) samples.old samples.new out.old out.new result }
    ensures length_bound { Bounded result }
{
    let stats = scarletbook_pcm::convert_frame(conv, run, samples)?;
    let ch = conv.channels as usize;
    let (length, after) = lines(stats, samples, ch, number, states, out);
    Ok(Reported {
        length,
        clipped: stats.clips(ch),
        states: after,
    })
}
