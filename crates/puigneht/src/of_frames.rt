// The level report's lines.
ghost use Rattle.c_converter.specs.Blocks.{converter_lists, input};
ghost use Rattle.c_levels.specs.Calls.{lent, LevelsCall, LastLineCall};

use c_converter::{Blocks, Input};

// The lines of a frame under its number, its clips, and what is in progress after it.
#[unsafe(no_mangle)]
pub extern "C" fn puigneht_frame_levels_call<'a>(
    numbers: &'a [u64; 8],
    gain: &'a [f64; 2],
    taps: &'a [i32; 117],
    presence: u8,
    before: &'a [u8],
    frames: &'a [u8],
    after: &'a [u8],
    frame: u64,
    standings: &mut [u64; 12],
    samples: &mut [i32],
    lines: &mut [u8],
    told: &mut [u64; 2],
    data: &mut [u64; 2],
    decibels: &mut [f64; 1],
) -> u8
    ensures { LevelsCall (converter_lists numbers.now gain.now taps.now) (input presence before.now frames.now after.now) frame
        (lent standings.old samples.old lines.old told.old «data».old decibels.old) (lent standings.new samples.new lines.new told.new «data».new decibels.new) result }
{
    let blocks = Blocks {
        numbers,
        gain,
        taps,
    };
    let input = Input {
        presence,
        before,
        frames,
        after,
    };
    c_levels::frame_levels(
        blocks, input, frame, standings, samples, lines, told, data, decibels,
    )
}

// The last line.
#[unsafe(no_mangle)]
pub extern "C" fn puigneht_last_line_call(frames: u64, clips: u64, lines: &mut [u8; 144]) -> usize
    ensures { LastLineCall frames clips lines.old lines.new result }
{
    c_levels::last_line(frames, clips, lines)
}
