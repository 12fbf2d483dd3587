// Frames out of a window of a file's data, or out of a whole file.
ghost use Rattle.std.specs.Prelude.{◌≡◌, ◌+◌, ◌*◌, ◌/◌, ◌≤◌, ◌<◌, leb, length};
ghost use Rattle.reference.specs.Refusals.{decide, decision};
ghost use Rattle.reference.specs.Frames.{frame_bytes};
ghost use Rattle.text.specs.Bytes.{Bytes};
ghost use Rattle.dsf.specs.Dsf.{data_frame};
ghost use Rattle.dsf_frames.specs.Reading.{window_start, window_end, window_of, asked_places, window_data, Framed, FramePromise, WindowPromise};
ghost use Rattle.dsf_frames.specs.inner.Windows.{WindowArgs};

use crate::FrameWindow;
use dsf::{DsfHeader, read_header};
use dsf_columns::{Channel, Stretch, column, order_table};
use reference::{FRAME_BYTES, PcmError};

// Tells that a slice's numbers are bytes: of a parameter that is known, of the slice in a `Stretch` it is not.
fn are_bytes(bytes: &[u8])
    ensures { Bytes bytes.now }
{}

// Frame f out of a window of the file's data.
fn frame_from_window(header: DsfHeader, f: u64, window: &Stretch, out: &mut [u8])
    requires { WindowArgs header.channels header.samples f window.now.start (length window.now.bytes.now) (length out.old) }
    ensures { out.new ≡ data_frame (window_data window.now.bytes.now window.now.start) header.channels header.bits_per_sample header.samples f }
{
    are_bytes(window.bytes);
    let channels = header.channels;
    let first = f * FRAME_BYTES as u64;
    let end = (header.samples / 8).min(first + FRAME_BYTES as u64);
    let table = order_table(header.bit_order());
    for number in 0..channels {
        let channel = Channel {
            number,
            channels,
            first,
            end,
        };
        column(window, &table, channel, out);
    }
}

// The groups of blocks that frame f touches.
#[tactic(auto, unfolding(crate::specs::Reading::window_start, crate::specs::Reading::window_end, dsf::specs::Dsf::blocks))]
fn groups(channels: u64, samples: u64, f: u64) -> FrameWindow
    requires { (channels ≤ 6) × (f * frame_bytes < samples / 8) }
    ensures { (result.start ≡ window_start channels f) × (result.end ≡ window_end channels samples f) }
{
    let first = f * FRAME_BYTES as u64;
    let last = (samples / 8).min(first + FRAME_BYTES as u64);
    let start = first / 4096 * 4096 * channels;
    let end = (last + 4095) / 4096 * 4096 * channels;
    FrameWindow { start, end }
}

// What a program that reads a file in pieces reads for a frame. Three numbers and no header: the C call has no more.
#[tactic(auto, using(crate::proofs::Asked::no_window, crate::proofs::Asked::no_channels), unfolding(dsf::specs::Dsf::frames_in))]
pub fn window(channels: u64, samples: u64, frame: u64) -> Option<FrameWindow>
    ensures { result ≡ window_of channels samples frame }
{
    if channels > 6 || (samples / 8).div_ceil(FRAME_BYTES as u64) <= frame {
        return None;
    }
    Some(groups(channels, samples, frame))
}

// Whether a stretch of so many bytes from a start on reaches to an end.
#[tactic(auto, using(crate::proofs::Windows::reach_is))]
pub fn reaches(start: u64, size: u64, end: u64) -> bool
    ensures { result ≡ leb end (start + size) }
{
    end.saturating_sub(start) <= size
}

// Whether a window holds a frame, and a buffer is one. That there are at most six channels is a clause here, as in
// `groups`: the fields of a `DsfHeader` are public, and one with that fact would ask it of whoever makes one.
#[tactic(auto, using(crate::proofs::Asked::no_frame, crate::proofs::Asked::begins_late, crate::proofs::Asked::ends_early, crate::proofs::Asked::wrong_room, crate::proofs::Asked::fits), unfolding(dsf::specs::Dsf::frames_in))]
fn asked(header: DsfHeader, frame: u64, window: &Stretch, room: usize) -> Result<(), PcmError>
    requires { header.channels ≤ 6 }
    ensures { decision result ≡ decide (asked_places header.channels header.samples frame window.now.start (length window.now.bytes.now) room) }
{
    if (header.samples / 8).div_ceil(FRAME_BYTES as u64) <= frame {
        return Err(PcmError::Frames(frame as usize));
    }
    let held = groups(header.channels, header.samples, frame);
    if held.start < window.start || !reaches(window.start, window.bytes.len() as u64, held.end) {
        return Err(PcmError::DsfLength);
    }
    let expected = FRAME_BYTES * header.channels as usize;
    if room != expected {
        return Err(PcmError::OutputBytes(room, expected));
    }
    Ok(())
}

// A frame of a file whose header is accepted.
fn take(header: DsfHeader, frame: u64, window: &Stretch, out: &mut [u8]) -> Result<(), PcmError>
    requires { (1 ≤ header.channels) × (header.channels ≤ 6) }
    ensures { Framed (asked_places header.channels header.samples frame window.now.start (length window.now.bytes.now) (length out.old))
        (data_frame (window_data window.now.bytes.now window.now.start) header.channels header.bits_per_sample header.samples frame) out.old out.new result }
{
    asked(header, frame, window, out.len())?;
    frame_from_window(header, frame, window, out);
    Ok(())
}

// A frame out of a window of the data, with the file's first bytes and its length.
pub fn window_frame(
    head: &[u8],
    length: u64,
    frame: u64,
    window: &[u8],
    start: u64,
    out: &mut [u8],
) -> Result<(), PcmError>
    ensures { WindowPromise head.now «length» frame window.now start out.old out.new result }
{
    let header = read_header(head, length)?;
    let window = Stretch {
        bytes: window,
        start,
    };
    take(header, frame, &window, out)
}

// A frame of a file.
pub fn frame(file: &[u8], frame: u64, out: &mut [u8]) -> Result<(), PcmError>
    ensures { FramePromise file.now frame out.old out.new result }
{
    let data = &file[file.len().min(92)..];
    window_frame(file, file.len() as u64, frame, data, 0, out)
}
