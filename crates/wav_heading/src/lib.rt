// The header of a plain WAV file alone, for a stream.
#![tactic(auto)]

ghost use Rattle.std.specs.Prelude.{◌≡◌, [], ◌∷◌};
ghost use Rattle.reference.specs.Refusals.{decision, decide};
ghost use Rattle.wav_heading.specs.Heading.{no_such_file, HeaderPromise};

use reference::{PcmError, PcmRate};
use wav_format::WavFormat;

// Whether there is a file with so many bytes of data: one or two channels, and whole frames, as many as the reader
// takes.
#[tactic(auto, using(reference::proofs::Refusals::at_first, reference::proofs::Refusals::at_next, reference::proofs::Refusals::at_end), unfolding(crate::specs::Heading::no_such_file))]
fn such_file(rate: PcmRate, channels: u8, bytes: u64) -> Result<(), PcmError>
    ensures { decision result ≡ decide (no_such_file rate channels bytes ∷ []) }
{
    if !wav_format::right_data(WavFormat { rate, channels }, bytes as usize) {
        return Err(PcmError::NotWav);
    }
    Ok(())
}

// The header of a WAV file.
#[tactic(auto, using(crate::proofs::Headed::head_refused, crate::proofs::Headed::head_wrong, crate::proofs::Headed::head_written, crate::proofs::Headed::head_fits))]
pub fn header(rate: PcmRate, channels: u8, bytes: u64, out: &mut [u8]) -> Result<(), PcmError>
    ensures { HeaderPromise rate channels bytes out.old out.new result }
{
    such_file(rate, channels, bytes)?;
    if out.len() != 44 {
        return Err(PcmError::OutputBytes(out.len(), 44));
    }
    wav_format::put_header(rate, channels, bytes as usize, out);
    Ok(())
}
