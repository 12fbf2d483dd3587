// An album's frames cut into pieces.
ghost use Rattle.std.specs.Prelude.{◌≡◌, ◌≤◌, ◌<◌, ◌+◌};
ghost use Rattle.reference.specs.Refusals.{most};
ghost use Rattle.reference.specs.declared.Limit.TheVariants as limit;
ghost use Rattle.tracks_open.specs.Open.{AlbumFits};
ghost use Rattle.tracks_plan.specs.Plan as plan;

use reference::FRAME_BYTES;
use tracks_open::Album;

// A piece: its frames, where its bytes stand in the album's data and how many they are, and the bytes of the frames
// that it is made of: its own and those next to it.
#[derive(Clone, Copy)]
pub struct Piece {
    pub first: u64,
    pub count: u64,
    pub place: u64,
    pub bytes: u64,
    pub scratch: u64,
}

// The frame behind the last that is read for some frames.
pub fn last(frames: u64, first: u64, count: u64) -> u64
    requires { (frames ≤ most limit.Rack) × (first + count ≤ frames) }
    ensures { result ≡ plan.last frames first count }
{
    (first + count + 1).min(frames)
}

// The piece from a frame on.
#[tactic(auto, using(crate::proofs::Pieces::place_bound, crate::proofs::Pieces::scratch_bound, crate::proofs::Pieces::held_within, crate::proofs::Pieces::held_few), unfolding(crate::specs::Plan::piece_from, crate::specs::Plan::piece_count))]
fn piece_from(album: Album, first: u64) -> Piece
    requires { AlbumFits album × (first < album.frames) }
    ensures { result ≡ plan.piece_from album first }
{
    let count = 128.min(album.frames - first);
    let held = last(album.frames, first, count) - first.saturating_sub(1);
    Piece {
        first,
        count,
        place: first * album.frame,
        bytes: count * album.frame,
        scratch: held * (FRAME_BYTES as u64 * album.channels),
    }
}

// Piece i, where there is one.
#[tactic(auto, using(crate::proofs::Pieces::begins_within), unfolding(crate::specs::Plan::piece_at, tracks_open::specs::Open::piece_total))]
pub fn piece_of(album: Album, i: u64) -> Option<Piece>
    requires { AlbumFits album }
    ensures { result ≡ plan.piece_at album i }
{
    if i >= album.frames.div_ceil(128) {
        return None;
    }
    Some(piece_from(album, i * 128))
}
