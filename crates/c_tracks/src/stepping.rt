// A piece's frames gathered, and the piece converted.
ghost use Rattle.c_stats.specs.Conversions.{results};
ghost use Rattle.c_tracks.specs.inner.Asked.{as_asked};
ghost use Rattle.c_tracks.specs.Steps.{lists, FramesCall, StepCall};

use crate::Asked;
use crate::telling::reason;
use c_stats::tell_conversion;
use codes::{NOT_UNDERSTOOD, tell};

// The frames of a piece and those next to it, out of windows of the tracks' data.
#[tactic(auto, using(codes::proofs::Calls::turned_away, codes::proofs::Known::none_known))]
pub fn frames(
    asked: Asked<'_>,
    first: u64,
    count: u64,
    windows: &[u8],
    scratch: &mut [u8],
    data: &mut [u64; 2],
    decibels: &mut [f64; 1],
) -> u8
    ensures { FramesCall (as_asked asked.entry) first count windows.now scratch.old scratch.new «data».old «data».new decibels.old decibels.new result }
{
    let Some(settings) = asked.settings() else {
        return NOT_UNDERSTOOD;
    };
    let made = tracks_step::frames(asked.tracks, settings, first, count, windows, scratch);
    tell(&reason(made), data, decibels)
}

// The piece converted.
#[tactic(auto, using(codes::proofs::Calls::turned_away, codes::proofs::Known::none_known))]
pub fn step(
    asked: Asked<'_>,
    first: u64,
    count: u64,
    windows: &[u8],
    scratch: &mut [u8],
    out: &mut [u8],
    stats: &mut [u64; 24],
    data: &mut [u64; 2],
    decibels: &mut [f64; 1],
) -> u8
    ensures { StepCall (as_asked asked.entry) first count windows.now (lists scratch.old out.old)
        (lists scratch.new out.new) (results stats.old «data».old decibels.old) (results stats.new «data».new decibels.new) result }
{
    let Some(settings) = asked.settings() else {
        return NOT_UNDERSTOOD;
    };
    let made = tracks_step::step(asked.tracks, settings, first, count, windows, scratch, out);
    tell_conversion(reason(made), stats, data, decibels)
}
