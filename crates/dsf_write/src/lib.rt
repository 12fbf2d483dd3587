// Frames written back as a DSF file. The definition is in specs/Written.
#![tactic(auto)]

ghost use Rattle.std.specs.Prelude.{◌≡◌, ◌/◌, ◌*◌, ◌≤◌, length};
ghost use Rattle.reference.specs.Refusals.{decide, decision, most};
ghost use Rattle.reference.specs.declared.Limit.TheVariants as limit;
ghost use Rattle.reference.specs.Frames.{frame_length};
ghost use Rattle.dsf_write.specs.Written.{file_length, length_places, written_data, head, laid_out, written, LengthPromise, HeadPromise, LaidPromise, WritePromise, Writable};
ghost use Rattle.dsf_write.specs.inner.Putting.{PutPromise};

mod header;
mod laid;

use dsf::data_bytes;
use header::put_header;
use laid::put_data;
use reference::{FRAME_BYTES, Length, MOST_FRAMES, PcmError};

// Channels and frames that can be written.
#[tactic(auto, using(crate::proofs::Writing::no_channels, crate::proofs::Writing::many_channels, crate::proofs::Writing::not_whole, crate::proofs::Writing::too_many, crate::proofs::Writing::all_right))]
fn tried(channels: u8, bytes: usize) -> Result<(), PcmError>
    ensures { decision result ≡ decide (length_places channels bytes) }
{
    if channels < 1 || channels > 6 {
        return Err(PcmError::Channels(channels));
    }
    let frame = FRAME_BYTES * channels as usize;
    if bytes % frame != 0 {
        return Err(PcmError::InputLength(bytes, Length::WholeFrames));
    }
    let count = bytes / frame;
    if count > MOST_FRAMES {
        return Err(PcmError::Frames(count));
    }
    Ok(())
}

// The length of a file of so many bytes of frames.
#[tactic(auto, unfolding(crate::specs::Written::file_length))]
fn length_of(channels: u8, bytes: usize) -> usize
    requires { (1 ≤ channels) × (channels ≤ 6) × (bytes / frame_length channels ≤ most limit.Rack) }
    ensures { result ≡ file_length channels bytes }
{
    let count = bytes / (FRAME_BYTES * channels as usize);
    let samples = 8 * (count * FRAME_BYTES) as u64;
    92 + data_bytes(samples, channels as u64) as usize
}

// The length of the file of so many bytes of frames.
pub fn file_length(channels: u8, bytes: usize) -> Result<usize, PcmError>
    ensures { LengthPromise channels bytes result }
{
    tried(channels, bytes)?;
    Ok(length_of(channels, bytes))
}

// The header of the file of so many bytes of frames that can be written, at the front of a list.
fn put_head(channels: u8, bytes: usize, out: &mut [u8])
    requires { (1 ≤ channels) × (channels ≤ 6) × (bytes / frame_length channels ≤ most limit.Rack) × (92 ≤ length out.old) }
    ensures { PutPromise 0 (head channels bytes) out.old out.new }
{
    let samples = 8 * (bytes / (FRAME_BYTES * channels as usize) * FRAME_BYTES) as u64;
    let need = data_bytes(samples, channels as u64);
    put_header(channels, 92 + need, samples, 12 + need, out);
}

// The header of the file of so many bytes of frames.
pub fn head(channels: u8, bytes: usize, out: &mut [u8; 92]) -> Result<(), PcmError>
    ensures { HeadPromise channels bytes out.old out.new result }
{
    tried(channels, bytes)?;
    put_head(channels, bytes, out);
    Ok(())
}

// The data of frames that can be written, into a list of its length.
fn fill_laid(channels: u8, frames: &[u8], out: &mut [u8])
    requires { Writable channels frames.now × (length out.old ≡ written_data channels frames.now) }
    ensures { out.new ≡ laid_out channels frames.now }
{
    let count = channels as usize;
    let bytes = frames.len() / (FRAME_BYTES * count) * FRAME_BYTES;
    put_data(frames, count, bytes, out);
}

// The data of some frames: what a file has after its header. Data of frames that are whole blocks, 128 or a multiple of
// it, and of the frames after them, end to end, are the data of all.
pub fn lay_out(channels: u8, frames: &[u8], out: &mut [u8]) -> Result<(), PcmError>
    ensures { LaidPromise channels frames.now out.old out.new result }
{
    let expected = file_length(channels, frames.len())? - 92;
    if out.len() != expected {
        return Err(PcmError::OutputBytes(out.len(), expected));
    }
    fill_laid(channels, frames, out);
    Ok(())
}

// The file of frames that can be written, into a list of its length.
fn fill(channels: u8, frames: &[u8], out: &mut [u8])
    requires { Writable channels frames.now × (length out.old ≡ file_length channels (length frames.now)) }
    ensures { out.new ≡ written channels frames.now }
{
    put_head(channels, frames.len(), out);
    fill_laid(channels, frames, &mut out[92..]);
}

// The file of some frames.
pub fn write(channels: u8, frames: &[u8], out: &mut [u8]) -> Result<(), PcmError>
    ensures { WritePromise channels frames.now out.old out.new result }
{
    let expected = file_length(channels, frames.len())?;
    if out.len() != expected {
        return Err(PcmError::OutputBytes(out.len(), expected));
    }
    fill(channels, frames, out);
    Ok(())
}
