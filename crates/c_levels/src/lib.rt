// The level report's calls, as C has them: the lines of a frame, its clips, and what is in progress after it; the last
// line. Where an argument is not understood, a call answers 255 and writes nothing.
#![tactic(auto)]

ghost use Rattle.std.specs.Prelude.{◌≡◌, [], ◌∷◌, ◌<◌};
ghost use Rattle.reference.specs.Refusals.{decision};
ghost use Rattle.codes.specs.inner.Codes.{if_known};
ghost use Rattle.codes.specs.Told.{if_ok, ToldWhole};
ghost use Rattle.c_converter.specs.inner.Blocks.{as_converter, as_input};
ghost use Rattle.c_levels.specs.Standings.{known_standings, held_standings, standing_number, standing_numbers};
ghost use Rattle.c_levels.specs.Calls.{lent, LevelsCall, LastLineCall};

use c_converter::{Blocks, Input};
use c_studio::{progress, standing};
use codes::{NOT_UNDERSTOOD, tell};
use levels::Reported;
use overs::Progress;
use reference::PcmError;
use std::array;

// Whether every end is known.
fn known(standings: &[u64; 12]) -> bool
    ensures { result ≡ known_standings standings.now }
{
    let s = standings;
    s[0] < 3 && s[2] < 3 && s[4] < 3 && s[6] < 3 && s[8] < 3 && s[10] < 3
}

// What is in progress in each channel, if every end is known.
#[tactic(auto, unfolding(codes::specs::inner::Codes::if_known, crate::specs::Standings::held_standings))]
fn states_of(standings: &[u64; 12]) -> Option<[Progress; 6]>
    ensures { result ≡ if_known (known_standings standings.now) (held_standings standings.now) }
{
    if !known(standings) {
        return None;
    }
    Some(array::from_fn(|c| { progress(standings[2 * c], standings[2 * c + 1]) }))
}

// Number k of a channel.
fn number(p: Progress, k: usize) -> u64
    ensures { result ≡ standing_number p k }
{
    let (end, length) = standing(p);
    if k == 0 { end } else { length }
}

// What is in progress is written.
#[tactic(auto, unfolding(crate::specs::Standings::standing_numbers))]
fn put_states(states: [Progress; 6], standings: &mut [u64; 12])
    ensures { standings.new ≡ standing_numbers states }
{
    let numbers = array::from_fn(|k| number(states[k / 2], k % 2));
    *standings = numbers;
}

// What is told of a frame: how long its lines are and its clips, and what is in progress after it.
fn tell_frame(
    made: Result<Reported, PcmError>,
    standings: &mut [u64; 12],
    told: &mut [u64; 2],
    data: &mut [u64; 2],
    decibels: &mut [f64; 1],
) -> u8
    ensures told_whole { ToldWhole (decision made) result «data».new decibels.new }
    ensures told_after { told.new ≡ if_ok (λ r. r.length ∷ r.clipped ∷ []) made told.old }
    ensures standings_after { standings.new ≡ if_ok (λ r. standing_numbers r.states) made standings.old }
{
    if let Ok(r) = made {
        *told = [r.length as u64, r.clipped];
        put_states(r.states, standings);
    }
    tell(&made, data, decibels)
}

// A frame's lines under its number, from what is in progress before it. The samples of the frame are lent a list, too.
#[tactic(auto, using(codes::proofs::Calls::turned_away, codes::proofs::Calls::not_left, codes::proofs::Calls::not_right, codes::proofs::Known::none_known))]
pub fn frame_levels<'a>(
    blocks: Blocks<'_>,
    input: Input<'a>,
    frame: u64,
    standings: &mut [u64; 12],
    samples: &mut [i32],
    lines: &mut [u8],
    told: &mut [u64; 2],
    data: &mut [u64; 2],
    decibels: &mut [f64; 1],
) -> u8
    ensures { LevelsCall (as_converter blocks.entry) (as_input input.entry) frame (lent standings.old samples.old lines.old told.old «data».old decibels.old)
        (lent standings.new samples.new lines.new told.new «data».new decibels.new) result }
{
    let Some(conv) = blocks.converter() else {
        return NOT_UNDERSTOOD;
    };
    let Some(states) = states_of(standings) else {
        return NOT_UNDERSTOOD;
    };
    if input.presence >= 4 {
        return NOT_UNDERSTOOD;
    }
    if lines.len() < 864 {
        return NOT_UNDERSTOOD;
    }
    let made = levels::frame_report(conv, frame, states, input.run(), samples, lines);
    tell_frame(made, standings, told, data, decibels)
}

// The report's last line, of frames and clips; the answer is its length.
pub fn last_line(frames: u64, clips: u64, lines: &mut [u8; 144]) -> usize
    ensures { LastLineCall frames clips lines.old lines.new result }
{
    level_lines::last_line(lines, 0, frames, clips)
}
