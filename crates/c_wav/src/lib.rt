// The calls over WAV files, as C has them. None asks anything, and each understands everything.
#![tactic(auto)]

ghost use Rattle.std.specs.Prelude.{◌≡◌};
ghost use Rattle.reference.specs.Refusals.{decision, refusal_number};
ghost use Rattle.codes.specs.Told.{if_ok};
ghost use Rattle.c_wav.specs.Calls.{format_numbers, WavReadCall, WavWriteCall, WavHeaderCall};
ghost use Rattle.c_wav.specs.inner.Made.{WavMade, HeaderMade};

use codes::{Answer, rate_of, tell_data};
use reference::PcmError;
use wav_format::WavFormat;

// A file's numbers, if it was taken; n bytes of data.
fn tell_file(made: Result<WavFormat, PcmError>, n: usize, told: &mut [u64; 4]) -> u8
    ensures { (result ≡ refusal_number (decision made)) × (told.new ≡ if_ok (format_numbers n) made told.old) }
{
    if let Ok(f) = made {
        *told = [f.rate.into(), f.channels.into(), 44, n as u64];
    }
    Answer::of(&made).number
}

// Rate, channels, and where the sample bytes of a file are and how many.
#[tactic(auto, using(crate::proofs::Done::read_done))]
pub fn read(file: &[u8], told: &mut [u64; 4]) -> u8
    ensures { WavReadCall file.now told.old told.new result }
{
    let n = wav_format::samples_of(file).len();
    tell_file(wav_format::read(file), n, told)
}

// A file from sample bytes, or 12 for a rate that is none of the three.
#[tactic(auto, using(crate::proofs::Done::unknown_written, codes::proofs::Known::none_known))]
fn written(rate: u64, channels: u8, bytes: &[u8], out: &mut [u8]) -> Result<(), PcmError>
    ensures { WavMade rate channels bytes.now out.old out.new result }
{
    let Some(known) = rate_of(rate) else {
        return Err(PcmError::NotWav);
    };
    wav_format::write(known, channels, bytes, out)
}

// A file from rate, channels and sample bytes.
#[tactic(auto, using(crate::proofs::Done::write_done))]
pub fn write(rate: u64, channels: u8, bytes: &[u8], out: &mut [u8], data: &mut [u64; 2]) -> u8
    ensures { WavWriteCall rate channels bytes.now out.old out.new «data».new result }
{
    tell_data(&written(rate, channels, bytes, out), data)
}

// The header of such a file, or 12.
fn headed(rate: u64, channels: u8, bytes: u64, out: &mut [u8; 44]) -> Result<(), PcmError>
    ensures { HeaderMade rate channels bytes out.old out.new result }
{
    let Some(known) = rate_of(rate) else {
        return Err(PcmError::NotWav);
    };
    wav_heading::header(known, channels, bytes, out)
}

// The first 44 bytes of a file with so many bytes of samples.
#[tactic(auto, using(crate::proofs::Done::header_done))]
pub fn header(rate: u64, channels: u8, bytes: u64, out: &mut [u8; 44]) -> u8
    ensures { WavHeaderCall rate channels bytes out.old out.new result }
{
    Answer::of(&headed(rate, channels, bytes, out)).number
}
