// Statistics joined, the level sheet, overs and turns.
ghost use Rattle.c_studio.specs.Calls.{JoinCall, SheetCall, OversCall, TurnsCall};

// The statistics of a stretch, with those of the stretch after it.
#[unsafe(no_mangle)]
pub extern "C" fn puigneht_join_stats_call(stats: &mut [u64; 24], more: &[u64; 24]) -> u8
    ensures { JoinCall stats.old more.now stats.new result }
{
    c_studio::join_stats(stats, more)
}

// The level sheet of some statistics.
#[unsafe(no_mangle)]
pub extern "C" fn puigneht_level_sheet_call(
    channels: u8,
    stats: &[u64; 24],
    out: &mut [u8],
    data: &mut [u64; 2],
) -> u8
    ensures { SheetCall channels stats.now out.old out.new «data».old «data».new result }
{
    c_studio::level_sheet(channels, stats, out, data)
}

// Overs of a channel, and what is in progress after its samples.
#[unsafe(no_mangle)]
pub extern "C" fn puigneht_overs_call(
    samples: &[i32],
    channels: usize,
    channel: usize,
    told: &mut [u64; 3],
) -> u8
    ensures { OversCall samples.now channels channel told.old told.new result }
{
    c_studio::overs(samples, channels, channel, told)
}

// Finishing turn and lateness of each album.
#[unsafe(no_mangle)]
pub extern "C" fn puigneht_turns_call(
    frames: &[u64],
    dues: &[u64],
    turn: u64,
    finishes: &mut [u64],
    late: &mut [i32],
) -> u8
    ensures { TurnsCall frames.now dues.now turn finishes.old late.old finishes.new late.new result }
{
    c_studio::turns(frames, dues, turn, finishes, late)
}
