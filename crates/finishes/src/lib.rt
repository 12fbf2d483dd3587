// The turn in which an album finishes, and how late that is.
#![tactic(auto)]

ghost use Rattle.std.specs.Prelude.{◌≡◌, true, ◌+◌, ◌*◌, ◌-◌, ◌/◌, ◌<◌, ◌≤◌, pos, ◌-ℤ◌, length};
ghost use Rattle.boards.specs.Boards.{board, in_range};
ghost use Rattle.finishes.specs.Turns.{finish_in, simulated};

// The turns that an album takes.
fn turns(frames: u64, turn: u64) -> u64
    requires { (1 ≤ frames) × (frames ≤ 540000) × (1 ≤ turn) }
    ensures { (result ≡ (frames - 1) / turn + 1) × (result ≤ 540000) }
{
    (frames - 1) / turn + 1
}

// The place of an album: by its due, and on a tie by its number.
fn place(due: u64, a: usize) -> u64
    requires { (due ≤ 1000000) × (a < 8) }
    ensures { result ≡ 8 * due + a }
{
    8 * due + a as u64
}

// An album finishes after the turns of all that have no later place. A `for`, and no chain with a `sum`: its closures
// would have to ask anew that album b is one of the list and in range.
pub fn finish(frames: &[u64], dues: &[u64], turn: u64, a: usize) -> u64
    requires { (in_range (board frames.now dues.now turn) ≡ true) × (length dues.now ≡ length frames.now) × (a < length frames.now) }
    ensures { (result ≡ finish_in (board frames.now dues.now turn) (simulated (board frames.now dues.now turn)) a) × (result ≤ 4320000) }
{
    let mut sum: u64 = 0;
    for b in 0..frames.len() {
        if place(dues[b], b) <= place(dues[a], a) {
            sum += turns(frames[b], turn);
        }
    }
    sum
}

pub fn lateness(finish: u64, due: u64) -> i32
    requires { (finish ≤ 4320000) × (due ≤ 1000000) }
    ensures { result ≡ pos finish -ℤ pos due }
{
    finish as i32 - due as i32
}
