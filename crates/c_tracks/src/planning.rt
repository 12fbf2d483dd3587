// The plan of an album.
ghost use Rattle.std.specs.Prelude.{◌≡◌, ◌*◌, length};
ghost use Rattle.tracks.specs.Tracks.{heads_of};
ghost use Rattle.c_tracks.specs.inner.Asked.{as_asked};
ghost use Rattle.c_tracks.specs.Calls as calls;
ghost use Rattle.c_tracks.specs.Calls.{PartCall, PieceCall, WritesCall};
ghost use Rattle.c_tracks.specs.inner.Calls.{PlanArgs};

use crate::Asked;
use album_parts::Part;
use codes::NOT_UNDERSTOOD;
use tracks_open::{Album, Tracks};

// The pieces of a part.
#[tactic(auto, unfolding(album_parts::specs::Parts::job_part))]
pub fn part(frames: u64, jobs: u64, part: u64, pieces: &mut [u64; 2])
    ensures { PartCall frames jobs part pieces.new }
{
    let none = Part { first: 0, end: 0 };
    let found = album_parts::part_of(frames, jobs, part).unwrap_or(none);
    *pieces = [found.first, found.end];
}

// A piece of an album, and what is read for it.
fn put_piece(tracks: Tracks<'_>, album: Album, piece: u64, plan: &mut [u64; 6], reads: &mut [u64])
    requires { PlanArgs tracks.heads.now tracks.lengths.now album (length reads.old) }
    ensures written { plan.new ≡ calls.plan_numbers album (heads_of tracks.entry.heads.now tracks.entry.lengths.now) piece }
    ensures asked { reads.new ≡ calls.read_numbers album (heads_of tracks.entry.heads.now tracks.entry.lengths.now) piece }
{
    let Some(p) = tracks_plan::piece_of(album, piece) else {
        *plan = [0; 6];
        reads.fill(0);
        return;
    };
    let window = tracks_plan::reads(tracks, album, p.first, p.count, reads);
    *plan = [p.first, p.count, p.place, p.bytes, p.scratch, window];
}

// A piece of the plan: zeros where there is no such piece.
#[tactic(auto, using(codes::proofs::Calls::turned_away, codes::proofs::Calls::not_left, codes::proofs::Calls::not_right, codes::proofs::Known::none_known))]
pub fn piece(asked: Asked<'_>, piece: u64, plan: &mut [u64; 6], reads: &mut [u64]) -> u8
    ensures { PieceCall (as_asked asked.entry) piece plan.old plan.new reads.old reads.new result }
{
    let Some(settings) = asked.settings() else {
        return NOT_UNDERSTOOD;
    };
    if reads.len() != 2 * asked.tracks.lengths.len() {
        return NOT_UNDERSTOOD;
    }
    match tracks_open::open(asked.tracks, settings) {
        Ok(album) => {
            put_piece(asked.tracks, album, piece, plan, reads);
            0
        }
        Err(refused) => refused.error.number() as u8,
    }
}

// Where a piece's bytes go. Nothing is written where a list does not fit.
pub fn writes(marks: &[u64], place: u64, bytes: u64, writes: &mut [u64])
    ensures { WritesCall marks.now place bytes writes.old writes.new }
{
    if writes.len() == 3 * marks.len().saturating_sub(1) {
        tracks_plan::writes(marks, place, bytes, writes);
    }
}
