// What is read of each track for some frames.
ghost use Rattle.std.specs.Prelude.{◌≡◌, [], ◌∷◌, ◌*◌, length};
ghost use Rattle.reference.specs.Frames.{frame_bytes};
ghost use Rattle.tracks.specs.Tracks.{heads_of};
ghost use Rattle.tracks.specs.Windows.{low, high};
ghost use Rattle.tracks_plan.specs.inner.Reads.{ReadsPromise};
ghost use Rattle.tracks_plan.specs.inner.Asked.{BetweenArgs, ReadsArgs};

use crate::cutting::last;
use reference::FRAME_BYTES;
use tracks_open::{Album, Tracks};
use tracks_put::Span;

fn put(start: u64, bytes: u64, out: &mut [u64])
    requires { length out.old ≡ 2 }
    ensures { out.new ≡ start ∷ bytes ∷ [] }
{
    out[0] = start;
    out[1] = bytes;
}

// Of some of an album's bytes of each channel.
#[tactic(auto, using(crate::proofs::Stretches::none_yet, crate::proofs::Stretches::next_fits, crate::proofs::Stretches::all_read))]
fn between(tracks: Tracks<'_>, channels: u64, span: Span, out: &mut [u64]) -> u64
    requires { BetweenArgs tracks.heads.now tracks.lengths.now channels span (length out.old) }
    ensures { ReadsPromise channels span.from span.to (heads_of tracks.entry.heads.now tracks.entry.lengths.now) out.new result }
{
    let mut offset = 0;
    let mut all = 0;
    for k in 0..tracks.lengths.len() {
        let length = tracks.length(k);
        let read = tracks_reads::read(channels, length, offset, span);
        let bytes = read.end - read.start;
        put(read.start, bytes, &mut out[2 * k..2 * k + 2]);
        all += bytes;
        offset += length;
    }
    all
}

// Two numbers for each track: where the stretch of its data begins that some frames need, and how long it is. The bytes
// of all stretches are answered.
pub fn reads(tracks: Tracks<'_>, album: Album, first: u64, count: u64, out: &mut [u64]) -> u64
    requires { ReadsArgs tracks.heads.now tracks.lengths.now album first count (length out.old) }
    ensures { let hs = heads_of tracks.entry.heads.now tracks.entry.lengths.now in ReadsPromise album.channels (low first * frame_bytes) (high hs first count * frame_bytes) hs out.new result }
{
    let from = first.saturating_sub(1) * FRAME_BYTES as u64;
    let to = last(album.frames, first, count) * FRAME_BYTES as u64;
    between(tracks, album.channels, Span { from, to }, out)
}
