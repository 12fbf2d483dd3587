// Request 11: turns on one board. Each list has a place for each album, in the order of their numbers.
#![tactic(auto)]

ghost use Rattle.schedule.specs.Promise.{SimulatePromise};

use boards::fitting;
use finishes::{finish, lateness};
use reference::PcmError;

// Finishing turn and lateness of each album. The lists stay apart, as the C call `puigneht_turns` hands over four.
pub fn simulate(
    frames: &[u64],
    dues: &[u64],
    turn: u64,
    finishes: &mut [u64],
    late: &mut [i32],
) -> Result<(), PcmError>
    ensures { SimulatePromise frames.now dues.now turn finishes.old late.old finishes.new late.new result }
{
    if !fitting(frames, dues, turn, finishes.len(), late.len()) {
        return Err(PcmError::Schedule);
    }
    for a in 0..frames.len() {
        let f = finish(frames, dues, turn, a);
        finishes[a] = f;
        late[a] = lateness(f, dues[a]);
    }
    Ok(())
}
