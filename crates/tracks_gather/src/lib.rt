// An album's frames gathered from its tracks: of each track the bytes that lie there, out of windows of their data.
#![tactic(auto)]

ghost use Rattle.std.specs.Prelude.{◌≡◌, ◌-◌, ◌*◌, length};
ghost use Rattle.reference.specs.Frames.{frame_bytes};
ghost use Rattle.tracks.specs.Runs.{frames_from};
ghost use Rattle.tracks.specs.Tracks.{head_at, heads_of, tracks_frame};
ghost use Rattle.tracks.specs.Windows.{windowed};
ghost use Rattle.tracks_gather.specs.inner.Gathering.{TakeArgs, TrackTaken, GatherArgs};

use dsf::header_numbers;
use dsf_columns::Stretch;
use reference::FRAME_BYTES;
use tracks_open::Tracks;
use tracks_put::{Span, fill, put_track};
use tracks_reads::read;

// Where a track begins: which byte of each channel of the album is its first, and where its window stands in the list.
#[derive(Clone, Copy)]
pub struct Start {
    pub byte: u64,
    pub window: usize,
}

// Track k's bytes that lie in some of an album's, out of its window; where the next begins.
fn take(
    tracks: Tracks<'_>,
    k: usize,
    start: Start,
    span: Span,
    windows: &[u8],
    out: &mut [u8],
) -> Start
    requires { TakeArgs tracks.heads.now tracks.lengths.now k start span (length windows.now) (length out.old) }
    ensures { TrackTaken (head_at tracks.entry.heads.now tracks.entry.lengths.now k) start span windows.now out.old out.new result }
{
    let header = header_numbers(tracks.head(k));
    let length = header.samples / 8;
    let read = read(header.channels, length, start.byte, span);
    let window = Stretch {
        bytes: &windows[start.window..],
        start: read.start,
    };
    put_track(header, start.byte, span, &window, out);
    Start {
        byte: start.byte + length,
        window: start.window + (read.end - read.start) as usize,
    }
}

// The frames `frames.from` to `frames.to` of an album of tracks, out of their windows, which stand end to end.
pub fn gather(tracks: Tracks<'_>, channels: u64, frames: Span, windows: &[u8], out: &mut [u8])
    requires { GatherArgs tracks.heads.now tracks.lengths.now channels frames (length windows.now) (length out.old) }
    ensures { out.new ≡ frames_from
        (tracks_frame channels (windowed channels (frames.from * frame_bytes) (frames.to * frame_bytes) 0 0
        windows.now (heads_of tracks.entry.heads.now tracks.entry.lengths.now))) frames.from (frames.to - frames.from) }
{
    let span = Span {
        from: frames.from * FRAME_BYTES as u64,
        to: frames.to * FRAME_BYTES as u64,
    };
    let mut next = Start { byte: 0, window: 0 };
    for k in 0..tracks.lengths.len() {
        next = take(tracks, k, next, span, windows, out);
    }
    let bytes = next.byte.min(span.to).saturating_sub(span.from);
    fill((bytes * channels) as usize, out);
}
