// The calls about DSF files, as C has them. None asks anything, and each understands everything.
#![tactic(auto)]

ghost use Rattle.std.specs.Prelude.{◌≡◌, [], ◌∷◌};
ghost use Rattle.reference.specs.Refusals.{decision};
ghost use Rattle.codes.specs.Told.{if_ok, ToldData};
ghost use Rattle.c_dsf.specs.Calls as calls;
ghost use Rattle.c_dsf.specs.Calls.{header_numbers, upload_number, upload_place};

use codes::{Answer, tell_data};
use dsf::DsfHeader;
use dsf_frames::FrameWindow;
use dsf_upload::Upload;
use reference::PcmError;

// What a file holds, in five numbers, or its refusal, which keeps their list.
fn tell_header(
    opened: Result<DsfHeader, PcmError>,
    header: &mut [u64; 5],
    data: &mut [u64; 2],
) -> u8
    ensures told_data { ToldData (decision opened) result «data».new }
    ensures header_after { header.new ≡ if_ok header_numbers opened header.old }
{
    if let Ok(h) = opened {
        *header = [
            h.channel_type,
            h.channels,
            h.bits_per_sample,
            h.samples,
            h.frames,
        ];
    }
    tell_data(&opened, data)
}

// What a file holds.
pub fn read(file: &[u8], header: &mut [u64; 5], data: &mut [u64; 2]) -> u8
    ensures { calls.DsfReadCall file.now header.old header.new «data».new result }
{
    tell_header(dsf::read(file), header, data)
}

// What a file holds, from its first 92 bytes and its length.
pub fn read_header(head: &[u8], length: u64, header: &mut [u64; 5], data: &mut [u64; 2]) -> u8
    ensures { calls.ReadHeaderCall head.now «length» header.old header.new «data».new result }
{
    tell_header(dsf::read_header(head, length), header, data)
}

// Why the file of this header is refused: the refusal's number, and the first wrong field.
#[tactic(auto, using(crate::proofs::Done::why_done))]
pub fn why(head: &[u8], length: u64, told: &mut [u64; 3]) -> u8
    ensures { calls.WhyCall head.now «length» told.new result }
{
    let found = dsf_why::why_of(head, length);
    *told = [found.place, found.value, found.asked];
    Answer::of(&dsf::read_header(head, length)).number
}

// What to read of the data for a frame: zeros stand for a window that is not there, as C has no `Option`.
#[tactic(auto, unfolding(dsf_frames::specs::Reading::frame_window))]
pub fn window(channels: u64, samples: u64, frame: u64, window: &mut [u64; 2])
    ensures { calls.WindowCall channels samples frame window.new }
{
    let none = FrameWindow { start: 0, end: 0 };
    let found = dsf_frames::window(channels, samples, frame).unwrap_or(none);
    *window = [found.start, found.end];
}

// A frame out of a window of the data.
#[tactic(auto, using(crate::proofs::Done::frame_done))]
pub fn window_frame<'a>(
    head: &'a [u8],
    length: u64,
    frame: u64,
    window: &'a [u8],
    start: u64,
    out: &mut [u8],
    data: &mut [u64; 2],
) -> u8
    ensures { calls.WindowFrameCall head.now «length» frame window.now start out.old out.new «data».new result }
{
    let taken = dsf_frames::window_frame(head, length, frame, window, start, out);
    tell_data(&taken, data)
}

// A frame of a file.
#[tactic(auto, using(crate::proofs::Done::frame_done))]
pub fn frame(file: &[u8], frame: u64, out: &mut [u8], data: &mut [u64; 2]) -> u8
    ensures { calls.FrameCall file.now frame out.old out.new «data».new result }
{
    tell_data(&dsf_frames::frame(file, frame, out), data)
}

// The file of some frames.
#[tactic(auto, using(crate::proofs::Done::write_done))]
pub fn write(channels: u8, frames: &[u8], out: &mut [u8], data: &mut [u64; 2]) -> u8
    ensures { calls.DsfWriteCall channels frames.now out.old out.new «data».new result }
{
    tell_data(&dsf_write::write(channels, frames, out), data)
}

// The first 92 bytes of the file of so many bytes of frames.
#[tactic(auto, using(crate::proofs::Done::head_done))]
pub fn head(channels: u8, bytes: usize, out: &mut [u8; 92], data: &mut [u64; 2]) -> u8
    ensures { calls.HeadCall channels bytes out.old out.new «data».new result }
{
    tell_data(&dsf_write::head(channels, bytes, out), data)
}

// The data of some frames.
#[tactic(auto, using(crate::proofs::Done::lay_out_done))]
pub fn lay_out(channels: u8, frames: &[u8], out: &mut [u8], data: &mut [u64; 2]) -> u8
    ensures { calls.LayOutCall channels frames.now out.old out.new «data».new result }
{
    tell_data(&dsf_write::lay_out(channels, frames, out), data)
}

// A length, or its refusal, which keeps the list of one number.
fn tell_length(made: Result<usize, PcmError>, size: &mut [u64; 1], data: &mut [u64; 2]) -> u8
    ensures told_data { ToldData (decision made) result «data».new }
    ensures size_after { size.new ≡ if_ok (λ k. k ∷ []) made size.old }
{
    if let Ok(n) = made {
        *size = [n as u64];
    }
    tell_data(&made, data)
}

// The length of the file of so many bytes of frames.
pub fn length(channels: u8, bytes: usize, size: &mut [u64; 1], data: &mut [u64; 2]) -> u8
    ensures { calls.LengthCall channels bytes size.old size.new «data».new result }
{
    tell_length(dsf_write::file_length(channels, bytes), size, data)
}

// An upload's answer; the place is written where it is given up.
fn tell_upload(u: Upload, place: &mut [u64; 1]) -> u8
    ensures { (result ≡ upload_number u) × (place.new ≡ upload_place u place.old) }
{
    match u {
        Upload::Accepted => 0,
        Upload::Unfinished => 1,
        Upload::GiveUp(n) => {
            *place = [n];
            2
        }
    }
}

// How early a file can be given up.
#[tactic(auto, using(crate::proofs::Done::upload_done))]
pub fn give_up(file: &[u8], place: &mut [u64; 1]) -> u8
    ensures { calls.GiveUpCall file.now place.old place.new result }
{
    tell_upload(dsf_upload::give_up(file), place)
}

// How early a file can be given up, from its first 92 bytes and its length.
#[tactic(auto, using(crate::proofs::Done::upload_done))]
pub fn give_up_header(head: &[u8], length: u64, place: &mut [u64; 1]) -> u8
    ensures { calls.GiveUpHeaderCall head.now «length» place.old place.new result }
{
    tell_upload(dsf_upload::give_up_header(head, length), place)
}
