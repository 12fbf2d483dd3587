// A step of an album of tracks: some of its frames, out of windows of the tracks' data, gathered, or converted too.
#![tactic(auto)]

mod asked;
mod conversion;

ghost use Rattle.tracks.specs.Tracks.{heads_of};
ghost use Rattle.tracks_open.specs.inner.Open.{TracksArgs};
ghost use Rattle.tracks_step.specs.Promises.{FramesPromise, StepPromise};

use asked::{long, ready};
use conversion::convert_piece;
use reference::{ConvertStats, PcmError, Settings};
use tracks_gather::gather;
use tracks_open::{Album, Refused, Tracks, settings_of};
use tracks_put::Span;

// What is accepted: the album, and its frames that are gathered.
#[derive(Clone, Copy)]
pub struct Gathered {
    pub album: Album,
    pub frames: Span,
}

// The frames of a piece and those next to it, end to end.
pub fn frames(
    tracks: Tracks<'_>,
    settings: Settings,
    first: u64,
    count: u64,
    windows: &[u8],
    scratch: &mut [u8],
) -> Result<Album, Refused>
    requires { TracksArgs tracks.heads.now tracks.lengths.now }
    ensures { FramesPromise (heads_of tracks.entry.heads.now tracks.entry.lengths.now) settings first count windows.now scratch.old scratch.new result }
{
    let ready = ready(tracks, settings, first, count, windows.len(), scratch.len())?;
    gather(tracks, ready.album.channels, ready.frames, windows, scratch);
    Ok(ready.album)
}

// The piece converted: its samples' bytes. Its frames and those next to it are left in `scratch`.
pub fn step(
    tracks: Tracks<'_>,
    settings: Settings,
    first: u64,
    count: u64,
    windows: &[u8],
    scratch: &mut [u8],
    out: &mut [u8],
) -> Result<ConvertStats, Refused>
    requires { TracksArgs tracks.heads.now tracks.lengths.now }
    ensures { StepPromise (heads_of tracks.entry.heads.now tracks.entry.lengths.now) settings first count windows.now scratch.old scratch.new out.old out.new result }
{
    let ready = ready(tracks, settings, first, count, windows.len(), scratch.len())?;
    let channels = ready.album.channels;
    if let Err(error) = long(out.len(), (count * ready.album.frame) as usize) {
        return Err(Refused { track: 0, error });
    }
    gather(tracks, channels, ready.frames, windows, scratch);
    let conv = settings_of(settings, channels as u8).converter();
    match convert_piece(conv, first, count, scratch, out) {
        Ok(told) => Ok(told),
        Err(error) => Err(Refused { track: 0, error }),
    }
}
