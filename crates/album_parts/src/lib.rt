// An album's pieces cut into parts: whole pieces, as evenly as they go.
#![tactic(auto)]

ghost use Rattle.std.specs.Prelude.{◌≡◌};
ghost use Rattle.album_parts.specs.Parts as parts;

use reference::MOST_FRAMES;

// Pieces from `first` on, `end` not among them.
#[derive(Clone, Copy)]
pub struct Part {
    pub first: u64,
    pub end: u64,
}

// Part j of so many: none of more than 540,000 frames or 64 parts, or where there is no such part.
#[tactic(auto, using(crate::proofs::Parts::small_share), unfolding(crate::specs::Parts::part_at, crate::specs::Parts::part_first, tracks_open::specs::Open::piece_total))]
pub fn part_of(frames: u64, jobs: u64, j: u64) -> Option<Part>
    ensures { result ≡ parts.part_at frames jobs j }
{
    if frames > MOST_FRAMES as u64 || jobs > 64 || j >= jobs {
        return None;
    }
    let pieces = (frames + 127) / 128;
    Some(Part {
        first: pieces * j / jobs,
        end: pieces * (j + 1) / jobs,
    })
}
