// Albums that wait for one board: their frames and dues, and the length of a turn. Each list has a place for each
// album, in the order of their numbers.
#![tactic(auto)]

ghost use Rattle.std.specs.Prelude.{◌≡◌, ◌&&◌, length, get_or};
ghost use Rattle.numbers.specs.Tests.{each_below};
ghost use Rattle.boards.specs.Boards as boards;
ghost use Rattle.boards.specs.Boards.{board};

#[tactic(auto, unfolding(crate::specs::Boards::within))]
fn album_in_range(frames: u64, due: u64) -> bool
    ensures { result ≡ (boards.within 1 540000 frames && boards.within 0 1000000 due) }
{
    1 <= frames && frames <= 540000 && due <= 1000000
}

fn albums_in_range(frames: &[u64], dues: &[u64]) -> bool
    requires { length dues.now ≡ length frames.now }
    ensures { result ≡ each_below (λ a. boards.within 1 540000 (get_or frames.now a 0) && boards.within 0 1000000 (get_or dues.now a 0)) (length frames.now) }
{
    for a in 0..frames.len() {
        if !album_in_range(frames[a], dues[a]) {
            return false;
        }
    }
    true
}

#[tactic(auto, unfolding(crate::specs::Boards::in_range, crate::specs::Boards::within))]
fn in_range(frames: &[u64], dues: &[u64], turn: u64) -> bool
    requires { length dues.now ≡ length frames.now }
    ensures { result ≡ boards.in_range (board frames.now dues.now turn) }
{
    let albums = frames.len();
    1 <= albums && albums <= 8 && albums_in_range(frames, dues) && 1 <= turn && turn <= 540000
}

// Whether every number is in its range, and each list has a place for each album.
#[tactic(auto, unfolding(crate::specs::Boards::fitting))]
pub fn fitting(frames: &[u64], dues: &[u64], turn: u64, finishes: usize, late: usize) -> bool
    ensures { result ≡ boards.fitting frames.now dues.now turn finishes late }
{
    let albums = frames.len();
    dues.len() == albums && in_range(frames, dues, turn) && finishes == albums && late == albums
}
