// What a step asks of its windows and its lists.
ghost use Rattle.std.specs.Prelude.{◌≡◌, [], ◌∷◌, ◌+◌, ◌≤◌, min};
ghost use Rattle.reference.specs.Refusals.{decision, decide, lent_length, most};
ghost use Rattle.reference.specs.declared.Limit.TheVariants as limit;
ghost use Rattle.tracks.specs.Tracks.{heads_of};
ghost use Rattle.tracks.specs.Windows.{low};
ghost use Rattle.tracks_open.specs.inner.Open.{TracksArgs};
ghost use Rattle.tracks_step.specs.inner.Steps.{no_frames, lent_places, LentArgs, ReadyPromise, FitArgs, Fitting};

use crate::Gathered;
use reference::{FRAME_BYTES, PcmError, Settings};
use tracks_open::{Album, Refused, Tracks, open};
use tracks_put::Span;

// Whether an album has so many frames from `first` on.
#[tactic(auto, using(crate::proofs::Asking::begins_past, crate::proofs::Asking::ends_past, crate::proofs::Asking::all_there))]
fn there(frames: u64, first: u64, count: u64) -> Result<(), PcmError>
    ensures { decision result ≡ decide (no_frames frames first count ∷ []) }
{
    if first > frames {
        return Err(PcmError::Frames(first as usize));
    }
    if count > frames - first {
        return Err(PcmError::Frames(first as usize));
    }
    Ok(())
}

// A list of so many bytes.
#[tactic(auto, using(refusals::proofs::Steps::wrong_bytes, refusals::proofs::Steps::right_length, refusals::proofs::Steps::nothing))]
pub fn long(n: usize, expected: usize) -> Result<(), PcmError>
    ensures { decision result ≡ decide (lent_length 7 n expected ∷ []) }
{
    if n == expected {
        Ok(())
    } else {
        Err(PcmError::OutputBytes(n, expected))
    }
}

// The windows and the list for some frames.
#[tactic(auto, using(crate::proofs::Asking::wrong_windows, crate::proofs::Asking::right_windows))]
fn lent(
    tracks: Tracks<'_>,
    channels: u64,
    frames: Span,
    windows: usize,
    scratch: usize,
) -> Result<(), PcmError>
    requires { LentArgs tracks.heads.now tracks.lengths.now channels frames }
    ensures { decision result ≡ decide (lent_places (heads_of tracks.entry.heads.now tracks.entry.lengths.now) channels frames windows scratch) }
{
    let span = Span {
        from: frames.from * FRAME_BYTES as u64,
        to: frames.to * FRAME_BYTES as u64,
    };
    if windows as u64 != tracks_reads::windows(tracks, channels, span) {
        return Err(PcmError::DsfLength);
    }
    long(
        scratch,
        ((frames.to - frames.from) * (FRAME_BYTES as u64 * channels)) as usize,
    )
}

// The frames of a piece and next to it, of an album of so many.
#[tactic(auto, using(crate::proofs::Asking::last_is))]
fn around(frames: u64, first: u64, count: u64) -> Span
    requires { (first + count ≤ frames) × (frames ≤ most limit.Rack) }
    ensures { (result.from ≡ low first) × (result.to ≡ min (first + count + 1) frames) }
{
    Span {
        from: first.saturating_sub(1),
        to: frames.min(first + count + 1),
    }
}

// All that is asked after the album.
#[tactic(auto, using(crate::proofs::Asking::is_there, crate::proofs::Asking::lent_args, crate::proofs::Asking::not_there, crate::proofs::Asking::not_lent, crate::proofs::Asking::all_fit))]
fn fits(
    tracks: Tracks<'_>,
    album: Album,
    first: u64,
    count: u64,
    windows: usize,
    scratch: usize,
) -> Result<Span, PcmError>
    requires { FitArgs tracks.heads.now tracks.lengths.now album }
    ensures { Fitting (heads_of tracks.entry.heads.now tracks.entry.lengths.now) first count windows scratch result }
{
    there(album.frames, first, count)?;
    let frames = around(album.frames, first, count);
    lent(tracks, album.channels, frames, windows, scratch)?;
    Ok(frames)
}

// The album and its frames, and all that is asked of them.
#[tactic(auto, using(crate::proofs::Asking::not_opened, crate::proofs::Asking::fit_args, crate::proofs::Asking::not_fitting, crate::proofs::Asking::is_ready))]
pub fn ready(
    tracks: Tracks<'_>,
    settings: Settings,
    first: u64,
    count: u64,
    windows: usize,
    scratch: usize,
) -> Result<Gathered, Refused>
    requires { TracksArgs tracks.heads.now tracks.lengths.now }
    ensures { ReadyPromise (heads_of tracks.entry.heads.now tracks.entry.lengths.now) settings first count windows scratch result }
{
    let album = open(tracks, settings)?;
    match fits(tracks, album, first, count, windows, scratch) {
        Ok(frames) => Ok(Gathered { album, frames }),
        Err(error) => Err(Refused { track: 0, error }),
    }
}
