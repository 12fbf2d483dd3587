// The library's calls for C: each hands on, and has the contract of the function that it calls. None asks anything of
// its arguments. Numbers and lists come one by one, as C has them; here they become the records of the functions below.
#![tactic(auto)]

ghost use Rattle.reference.specs.Promises.{PackPromise};
ghost use Rattle.c_converter.specs.Blocks.{converter_lists, input};
ghost use Rattle.c_stats.specs.Conversions.{results};
ghost use Rattle.c_calls.specs.Calls.{c_wanted, GainCall, OpenCall, ChangeCall, SamplesCall, BytesCall};
ghost use Rattle.c_calls.specs.declared.conversions.ToSamples.TheVariants as samples_of;
ghost use Rattle.c_calls.specs.declared.conversions.ToBytes.TheVariants as bytes_of;

use c_calls::{ToBytes, ToSamples, convert_bytes, convert_samples};
use c_converter::{Blocks, Input};

mod dsf_files;
mod of_frames;
mod studio;
mod wav_files;

pub use dsf_files::{
    puigneht_dsf_frame_call, puigneht_dsf_give_up_call, puigneht_dsf_give_up_header_call,
    puigneht_dsf_head_call, puigneht_dsf_lay_out_call, puigneht_dsf_length_call,
    puigneht_dsf_read_call, puigneht_dsf_read_header_call, puigneht_dsf_why_call,
    puigneht_dsf_window_call, puigneht_dsf_window_frame_call, puigneht_dsf_write_call,
};
pub use of_frames::{puigneht_frame_levels_call, puigneht_last_line_call};
pub use studio::{
    puigneht_join_stats_call, puigneht_level_sheet_call, puigneht_overs_call, puigneht_turns_call,
};
pub use wav_files::{puigneht_wav_header_call, puigneht_wav_read_call, puigneht_wav_write_call};

// The gain record of some decibels.
#[unsafe(no_mangle)]
pub extern "C" fn puigneht_gain_call(db: f64, gain: &mut [f64; 2], decibels: &mut [f64; 1]) -> u8
    ensures { GainCall db gain.old gain.new decibels.new result }
{
    c_calls::gain(db, gain, decibels)
}

// Whether a converter has these settings; the numbers that it stores.
#[unsafe(no_mangle)]
pub extern "C" fn puigneht_open_call(
    numbers: &mut [u64; 8],
    gain: &[f64; 2],
    taps: &[i32; 117],
    data: &mut [u64; 2],
    decibels: &mut [f64; 1],
) -> u8
    ensures { OpenCall (converter_lists numbers.old gain.now taps.now) numbers.new «data».old «data».new decibels.old decibels.new result }
{
    c_calls::open(numbers, gain, taps, data, decibels)
}

// Another rate, cutoff and gain for an open converter.
#[unsafe(no_mangle)]
pub extern "C" fn puigneht_change_call(
    numbers: &mut [u64; 8],
    gain: &mut [f64; 2],
    taps: &[i32; 117],
    rate: u64,
    cutoff: u64,
    wanted: &[f64; 2],
    data: &mut [u64; 2],
    decibels: &mut [f64; 1],
) -> u8
    ensures { ChangeCall (converter_lists numbers.old gain.old taps.now) (c_wanted rate cutoff wanted.now) numbers.new gain.new «data».old «data».new decibels.old decibels.new result }
{
    c_calls::change(numbers, gain, taps, rate, cutoff, wanted, data, decibels)
}

// 32-bit samples of a run.
#[unsafe(no_mangle)]
pub extern "C" fn puigneht_convert_run_call<'a>(
    numbers: &'a [u64; 8],
    gain: &'a [f64; 2],
    taps: &'a [i32; 117],
    presence: u8,
    before: &'a [u8],
    frames: &'a [u8],
    after: &'a [u8],
    out: &mut [i32],
    stats: &mut [u64; 24],
    data: &mut [u64; 2],
    decibels: &mut [f64; 1],
) -> u8
    ensures { SamplesCall samples_of.Run (converter_lists numbers.now gain.now taps.now) (input presence before.now frames.now after.now)
        out.old out.new (results stats.old «data».old decibels.old) (results stats.new «data».new decibels.new) result }
{
    let blocks = Blocks {
        numbers,
        gain,
        taps,
    };
    let input = Input {
        presence,
        before,
        frames,
        after,
    };
    convert_samples(ToSamples::Run, blocks, input, out, stats, data, decibels)
}

// 32-bit samples of exactly one frame.
#[unsafe(no_mangle)]
pub extern "C" fn puigneht_convert_frame_call<'a>(
    numbers: &'a [u64; 8],
    gain: &'a [f64; 2],
    taps: &'a [i32; 117],
    presence: u8,
    before: &'a [u8],
    frames: &'a [u8],
    after: &'a [u8],
    out: &mut [i32],
    stats: &mut [u64; 24],
    data: &mut [u64; 2],
    decibels: &mut [f64; 1],
) -> u8
    ensures { SamplesCall samples_of.Frame (converter_lists numbers.now gain.now taps.now) (input presence before.now frames.now after.now)
        out.old out.new (results stats.old «data».old decibels.old) (results stats.new «data».new decibels.new) result }
{
    let blocks = Blocks {
        numbers,
        gain,
        taps,
    };
    let input = Input {
        presence,
        before,
        frames,
        after,
    };
    convert_samples(ToSamples::Frame, blocks, input, out, stats, data, decibels)
}

// Samples of a run, three bytes each.
#[unsafe(no_mangle)]
pub extern "C" fn puigneht_convert_call<'a>(
    numbers: &'a [u64; 8],
    gain: &'a [f64; 2],
    taps: &'a [i32; 117],
    presence: u8,
    before: &'a [u8],
    frames: &'a [u8],
    after: &'a [u8],
    out: &mut [u8],
    counts: &mut [u64],
    stats: &mut [u64; 24],
    data: &mut [u64; 2],
    decibels: &mut [f64; 1],
) -> u8
    ensures { BytesCall bytes_of.Rack (converter_lists numbers.now gain.now taps.now) (input presence before.now frames.now after.now)
        out.old counts.old out.new counts.new (results stats.old «data».old decibels.old) (results stats.new «data».new decibels.new) result }
{
    let blocks = Blocks {
        numbers,
        gain,
        taps,
    };
    let input = Input {
        presence,
        before,
        frames,
        after,
    };
    convert_bytes(
        ToBytes::Rack,
        blocks,
        input,
        out,
        counts,
        stats,
        data,
        decibels,
    )
}

// For the listening desk, which takes at most 8 frames.
#[unsafe(no_mangle)]
pub extern "C" fn puigneht_convert_desk_call<'a>(
    numbers: &'a [u64; 8],
    gain: &'a [f64; 2],
    taps: &'a [i32; 117],
    presence: u8,
    before: &'a [u8],
    frames: &'a [u8],
    after: &'a [u8],
    out: &mut [u8],
    counts: &mut [u64],
    stats: &mut [u64; 24],
    data: &mut [u64; 2],
    decibels: &mut [f64; 1],
) -> u8
    ensures { BytesCall bytes_of.Desk (converter_lists numbers.now gain.now taps.now) (input presence before.now frames.now after.now)
        out.old counts.old out.new counts.new (results stats.old «data».old decibels.old) (results stats.new «data».new decibels.new) result }
{
    let blocks = Blocks {
        numbers,
        gain,
        taps,
    };
    let input = Input {
        presence,
        before,
        frames,
        after,
    };
    convert_bytes(
        ToBytes::Desk,
        blocks,
        input,
        out,
        counts,
        stats,
        data,
        decibels,
    )
}

// A WAV file from a run.
#[unsafe(no_mangle)]
pub extern "C" fn puigneht_wav_convert_call<'a>(
    numbers: &'a [u64; 8],
    gain: &'a [f64; 2],
    taps: &'a [i32; 117],
    presence: u8,
    before: &'a [u8],
    frames: &'a [u8],
    after: &'a [u8],
    out: &mut [u8],
    counts: &mut [u64],
    stats: &mut [u64; 24],
    data: &mut [u64; 2],
    decibels: &mut [f64; 1],
) -> u8
    ensures { BytesCall bytes_of.Wav (converter_lists numbers.now gain.now taps.now) (input presence before.now frames.now after.now)
        out.old counts.old out.new counts.new (results stats.old «data».old decibels.old) (results stats.new «data».new decibels.new) result }
{
    let blocks = Blocks {
        numbers,
        gain,
        taps,
    };
    let input = Input {
        presence,
        before,
        frames,
        after,
    };
    convert_bytes(
        ToBytes::Wav,
        blocks,
        input,
        out,
        counts,
        stats,
        data,
        decibels,
    )
}

// 32-bit samples as three bytes each, as many as there are bytes for.
#[unsafe(no_mangle)]
pub extern "C" fn puigneht_pack_s24le_call(samples: &[i32], bytes: &mut [u8])
    ensures { PackPromise samples.now bytes.old bytes.new }
{
    scarletbook_pcm::pack_s24le(samples, bytes)
}
