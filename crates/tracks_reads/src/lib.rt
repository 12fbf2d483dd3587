// What is to be read of each track for some bytes of an album.
#![tactic(auto)]

ghost use Rattle.std.specs.Prelude.{◌≡◌};
ghost use Rattle.tracks.specs.Tracks.{heads_of};
ghost use Rattle.tracks.specs.Windows.{windows_length};
ghost use Rattle.tracks_reads.specs.inner.Reading.{ReadArgs, read_from, read_to, WindowsArgs};

use dsf_frames::FrameWindow;
use tracks_open::Tracks;
use tracks_put::Span;

// Of a track with so many bytes of each channel, which begins at a byte of the album: the groups of blocks around its
// bytes that lie in some of the album's. Nothing where it has none there.
pub fn read(channels: u64, length: u64, begins: u64, span: Span) -> FrameWindow
    requires { ReadArgs channels span }
    ensures { (result.start ≡ read_from channels «length» begins span) × (result.end ≡ read_to channels «length» begins span) }
{
    let from = span.from.saturating_sub(begins);
    let to = length.min(span.to.saturating_sub(begins));
    if from < to {
        let start = from / 4096 * 4096 * channels;
        let end = (to + 4095) / 4096 * 4096 * channels;
        return FrameWindow { start, end };
    }
    FrameWindow { start: 0, end: 0 }
}

// Bytes of all tracks' windows.
pub fn windows(tracks: Tracks<'_>, channels: u64, span: Span) -> u64
    requires { WindowsArgs tracks.heads.now tracks.lengths.now channels span }
    ensures { result ≡ windows_length channels span.from span.to 0 (heads_of tracks.entry.heads.now tracks.entry.lengths.now) }
{
    let mut begins = 0u64;
    let mut bytes = 0u64;
    for k in 0..tracks.lengths.len() {
        let length = tracks.length(k);
        let read = read(channels, length, begins, span);
        bytes += read.end - read.start;
        begins += length;
    }
    bytes
}
