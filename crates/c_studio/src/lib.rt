// The calls of the studio, as C has them: statistics joined, the level sheet, overs, turns. Where an argument is not
// understood, a call answers 255 and writes nothing.
#![tactic(auto)]

ghost use Rattle.std.specs.Prelude.{◌≡◌};
ghost use Rattle.codes.specs.inner.Codes.{if_known};
ghost use Rattle.c_studio.specs.Progress as numbers;
ghost use Rattle.c_studio.specs.Calls.{JoinCall, SheetCall, OversCall, TurnsCall};

use c_stats::{put_stats, stats_of};
use codes::{Answer, NOT_UNDERSTOOD, tell_data};
use overs::{End, OverCount, Progress, Standing};

// The statistics of a stretch, with those of the stretch after it.
#[tactic(auto, using(codes::proofs::Calls::turned_away, codes::proofs::Calls::not_left, codes::proofs::Calls::not_right, codes::proofs::Known::none_known))]
pub fn join_stats(stats: &mut [u64; 24], more: &[u64; 24]) -> u8
    ensures { JoinCall stats.old more.now stats.new result }
{
    let Some(a) = stats_of(stats) else {
        return NOT_UNDERSTOOD;
    };
    let Some(b) = stats_of(more) else {
        return NOT_UNDERSTOOD;
    };
    put_stats(stretches::join_stats(a, b), stats);
    0
}

// The level sheet of some statistics.
#[tactic(auto, using(codes::proofs::Calls::turned_away, codes::proofs::Known::none_known))]
pub fn level_sheet(channels: u8, stats: &[u64; 24], out: &mut [u8], data: &mut [u64; 2]) -> u8
    ensures { SheetCall channels stats.now out.old out.new «data».old «data».new result }
{
    let Some(known) = stats_of(stats) else {
        return NOT_UNDERSTOOD;
    };
    tell_data(&sheet::level_sheet(channels, known, out), data)
}

// What is in progress, by its end's number and its length: an end is 1 for the highest, 2 for the lowest, and 0 for
// none.
#[tactic(auto, unfolding(crate::specs::Progress::progress_of))]
pub fn progress(end: u64, length: u64) -> Progress
    ensures { result ≡ numbers.progress_of end «length» }
{
    let at = |end| Some(Standing { end, length });
    match end {
        0 => None,
        1 => at(End::High),
        _ => at(End::Low),
    }
}

// The same, if its end is known.
#[tactic(auto, unfolding(codes::specs::inner::Codes::if_known))]
fn in_progress(end: u64, length: u64) -> Option<Progress>
    ensures { result ≡ if_known (numbers.known_end end) (numbers.progress_of end «length») }
{
    (end < 3).then_some(progress(end, length))
}

// The end's number, and the length.
pub fn standing(p: Progress) -> (u64, u64)
    ensures { result ≡ (numbers.end_number p, numbers.standing_length p) }
{
    let Some(s) = p else { return (0, 0) };
    match s.end {
        End::High => (1, s.length),
        End::Low => (2, s.length),
    }
}

fn tell_overs(o: OverCount, told: &mut [u64; 3])
    ensures { told.new ≡ numbers.over_numbers o }
{
    let (end, length) = standing(o.next);
    *told = [o.count, end, length];
}

// Overs of a channel of interleaved samples, from what is in progress before them, and what is in progress after them.
#[tactic(auto, using(codes::proofs::Calls::turned_away, codes::proofs::Known::none_known))]
pub fn overs(samples: &[i32], channels: usize, channel: usize, told: &mut [u64; 3]) -> u8
    ensures { OversCall samples.now channels channel told.old told.new result }
{
    let Some(before) = in_progress(told[1], told[2]) else {
        return NOT_UNDERSTOOD;
    };
    tell_overs(
        channel_overs::overs(samples, channels, channel, before),
        told,
    );
    0
}

// Finishing turn and lateness of each album.
#[tactic(auto, using(codes::proofs::Calls::turned_away, codes::proofs::Calls::not_left, codes::proofs::Calls::not_right))]
pub fn turns(frames: &[u64], dues: &[u64], turn: u64, finishes: &mut [u64], late: &mut [i32]) -> u8
    ensures { TurnsCall frames.now dues.now turn finishes.old late.old finishes.new late.new result }
{
    let albums = frames.len();
    if dues.len() != albums || finishes.len() != albums || late.len() != albums {
        return NOT_UNDERSTOOD;
    }
    let made = schedule::simulate(frames, dues, turn, finishes, late);
    Answer::of(&made).number
}
