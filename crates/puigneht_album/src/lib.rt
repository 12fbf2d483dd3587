// The calls about albums for C: each hands on, and has the contract of the function that it calls. None asks anything
// of its arguments. Numbers and lists come one by one, as C has them.
#![tactic(auto)]

ghost use Rattle.c_converter.specs.Blocks.{converter_lists};
ghost use Rattle.c_stats.specs.Conversions.{results};
ghost use Rattle.c_tracks.specs.Asked.{asked};
ghost use Rattle.c_tracks.specs.Calls.{outputs, OpenAlbumCall, PartCall, PieceCall, WritesCall};
ghost use Rattle.c_tracks.specs.Steps.{lists, FramesCall, StepCall};
ghost use Rattle.c_wave.specs.Calls.{KindHeaderCall};

use c_tracks::Asked;
use tracks_open::Tracks;

// Opens an album, from the first 92 bytes of each file and the files' lengths.
#[unsafe(no_mangle)]
pub extern "C" fn puigneht_album_open_call<'a>(
    numbers: &'a [u64; 8],
    gain: &'a [f64; 2],
    taps: &'a [i32; 117],
    heads: &'a [u8],
    lengths: &'a [u64],
    album: &mut [u64; 8],
    marks: &mut [u64],
    track: &mut [u64; 1],
    data: &mut [u64; 2],
    decibels: &mut [f64; 1],
) -> u8
    ensures { OpenAlbumCall (asked (converter_lists numbers.now gain.now taps.now) heads.now lengths.now)
        (outputs album.old marks.old track.old «data».old decibels.old) (outputs album.new marks.new track.new «data».new decibels.new) result }
{
    let asked = Asked {
        numbers,
        gain,
        taps,
        tracks: Tracks { heads, lengths },
    };
    c_tracks::open(asked, album, marks, track, data, decibels)
}

// A piece of the plan, and what is read for it.
#[unsafe(no_mangle)]
pub extern "C" fn puigneht_album_piece_call<'a>(
    numbers: &'a [u64; 8],
    gain: &'a [f64; 2],
    taps: &'a [i32; 117],
    heads: &'a [u8],
    lengths: &'a [u64],
    piece: u64,
    plan: &mut [u64; 6],
    reads: &mut [u64],
) -> u8
    ensures { PieceCall (asked (converter_lists numbers.now gain.now taps.now) heads.now lengths.now) piece plan.old plan.new reads.old reads.new result }
{
    let asked = Asked {
        numbers,
        gain,
        taps,
        tracks: Tracks { heads, lengths },
    };
    c_tracks::piece(asked, piece, plan, reads)
}

// The pieces of a part.
#[unsafe(no_mangle)]
pub extern "C" fn puigneht_album_part_call(frames: u64, jobs: u64, part: u64, pieces: &mut [u64; 2])
    ensures { PartCall frames jobs part pieces.new }
{
    c_tracks::part(frames, jobs, part, pieces)
}

// Where a piece's bytes go.
#[unsafe(no_mangle)]
pub extern "C" fn puigneht_album_writes_call(
    marks: &[u64],
    place: u64,
    bytes: u64,
    writes: &mut [u64],
)
    ensures { WritesCall marks.now place bytes writes.old writes.new }
{
    c_tracks::writes(marks, place, bytes, writes)
}

// The frames of a piece and those next to it, out of windows of the tracks' data.
#[unsafe(no_mangle)]
pub extern "C" fn puigneht_album_frames_call<'a>(
    numbers: &'a [u64; 8],
    gain: &'a [f64; 2],
    taps: &'a [i32; 117],
    heads: &'a [u8],
    lengths: &'a [u64],
    first: u64,
    count: u64,
    windows: &[u8],
    scratch: &mut [u8],
    data: &mut [u64; 2],
    decibels: &mut [f64; 1],
) -> u8
    ensures { FramesCall (asked (converter_lists numbers.now gain.now taps.now) heads.now lengths.now)
        first count windows.now scratch.old scratch.new «data».old «data».new decibels.old decibels.new result }
{
    let asked = Asked {
        numbers,
        gain,
        taps,
        tracks: Tracks { heads, lengths },
    };
    c_tracks::frames(asked, first, count, windows, scratch, data, decibels)
}

// A piece converted.
#[unsafe(no_mangle)]
pub extern "C" fn puigneht_album_step_call<'a>(
    numbers: &'a [u64; 8],
    gain: &'a [f64; 2],
    taps: &'a [i32; 117],
    heads: &'a [u8],
    lengths: &'a [u64],
    first: u64,
    count: u64,
    windows: &[u8],
    scratch: &mut [u8],
    out: &mut [u8],
    stats: &mut [u64; 24],
    data: &mut [u64; 2],
    decibels: &mut [f64; 1],
) -> u8
    ensures { StepCall (asked (converter_lists numbers.now gain.now taps.now) heads.now lengths.now) first count windows.now
        (lists scratch.old out.old) (lists scratch.new out.new) (results stats.old «data».old decibels.old) (results stats.new «data».new decibels.new) result }
{
    let asked = Asked {
        numbers,
        gain,
        taps,
        tracks: Tracks { heads, lengths },
    };
    c_tracks::step(
        asked, first, count, windows, scratch, out, stats, data, decibels,
    )
}

// The header of a WAV file with so many bytes of samples, its length, and the bytes behind the data.
#[unsafe(no_mangle)]
pub extern "C" fn puigneht_wave_header_call(
    format: u64,
    rate: u64,
    channels: u64,
    channel_type: u64,
    bytes: u64,
    out: &mut [u8; 104],
    told: &mut [u64; 2],
) -> u8
    ensures { KindHeaderCall format rate channels «channel_type» bytes out.old out.new told.old told.new result }
{
    c_wave::header(format, rate, channels, channel_type, bytes, out, told)
}
