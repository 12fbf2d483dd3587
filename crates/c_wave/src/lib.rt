// The call about a WAV file's header, as C has it. Where a format or a rate is unknown, it answers 255 and writes
// nothing.
#![tactic(auto)]

ghost use Rattle.std.specs.Prelude.{◌≡◌, [], ◌∷◌, ◌&&◌};
ghost use Rattle.reference.specs.Refusals.{decision, refusal_number};
ghost use Rattle.codes.specs.Codes as codes;
ghost use Rattle.codes.specs.inner.Codes.{if_known};
ghost use Rattle.codes.specs.Told.{if_ok};
ghost use Rattle.wave_headers.specs.Headers as headers;
ghost use Rattle.c_wave.specs.Calls as calls;
ghost use Rattle.c_wave.specs.Calls.{known_format, KindHeaderCall};

use codes::{Answer, NOT_UNDERSTOOD, rate_of};
use reference::{PcmError, PcmRate};
use wave_headers::Format;

#[tactic(auto, unfolding(codes::specs::inner::Codes::if_known, crate::specs::Calls::format_of))]
fn format_of(n: u64) -> Option<Format>
    ensures { result ≡ if_known (known_format n) (calls.format_of n) }
{
    match n {
        0 => Some(Format::Auto),
        1 => Some(Format::Wav),
        2 => Some(Format::Rf64),
        _ => None,
    }
}

// What known numbers stand for.
#[tactic(auto, using(codes::proofs::Known::some_known, codes::proofs::Known::none_known), unfolding(codes::specs::inner::Codes::if_known))]
fn asked(format: u64, rate: u64) -> Option<(Format, PcmRate)>
    ensures { result ≡ if_known (known_format format && codes.known_rate rate) (calls.format_of format, codes.rate_of rate) }
{
    let format = format_of(format)?;
    let rate = rate_of(rate)?;
    Some((format, rate))
}

// A header's length, if it was written, and the bytes behind n bytes of data.
#[tactic(auto, unfolding(wave_headers::specs::Headers::pad))]
fn tell_lengths(made: Result<u64, PcmError>, n: u64, told: &mut [u64; 2]) -> u8
    ensures { (result ≡ refusal_number (decision made)) × (told.new ≡ if_ok (λ l. l ∷ headers.pad n ∷ []) made told.old) }
{
    if let Ok(length) = made {
        *told = [length, n % 2];
    }
    Answer::of(&made).number
}

// The header of a file with so many bytes of samples.
#[tactic(auto, using(codes::proofs::Calls::turned_away, codes::proofs::Known::none_known))]
pub fn header(
    format: u64,
    rate: u64,
    channels: u64,
    channel_type: u64,
    bytes: u64,
    out: &mut [u8; 104],
    told: &mut [u64; 2],
) -> u8
    ensures { KindHeaderCall format rate channels «channel_type» bytes out.old out.new told.old told.new result }
{
    let Some((format, rate)) = asked(format, rate) else {
        return NOT_UNDERSTOOD;
    };
    let made = wave_headers::header(format, rate, channels, channel_type, bytes, out);
    tell_lengths(made, bytes, told)
}
