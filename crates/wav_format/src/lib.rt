// WAV files: read, and made from sample bytes. Neither call asks anything.
#![tactic(auto)]

ghost use Rattle.std.specs.Prelude.{◌≡◌, ◌+◌, ◌*◌, ◌-◌, ◌≤◌, ◌<◌, length, take};
ghost use Rattle.text.specs.Lists.{same};
ghost use Rattle.reference.specs.Codes as codes;
ghost use Rattle.wav_format.specs.Wav as wav;
ghost use Rattle.wav_format.specs.Wav.{right_data};
ghost use Rattle.wav_header.specs.Header.{header, most_data};
ghost use Rattle.wav_format.specs.inner.Deciding as deciding;
ghost use Rattle.wav_format.specs.Promises.{ReadPromise, file_samples, WritePromise};

use reference::{MOST_FRAMES, PcmError, PcmRate};
pub use wav_header::put_header;

// What the header of a file tells.
#[derive(Clone, Copy, PartialEq, Eq)]
pub struct WavFormat {
    pub rate: PcmRate,
    pub channels: u8,
}

// Bytes of the samples of a frame, all channels.
#[tactic(auto, using(crate::proofs::Reading::frame_some), unfolding(crate::specs::Wav::frame_size))]
fn frame_size(rate: PcmRate, channels: usize) -> usize
    requires { (1 ≤ channels) × (channels ≤ 2) }
    ensures { (result ≡ wav.frame_size rate channels) × (1 ≤ result) }
{
    3 * rate.samples_per_frame() * channels
}

// Whether the reader takes so many bytes of data in this format.
#[tactic(auto, unfolding(crate::specs::Wav::right_data))]
pub fn right_data(format: WavFormat, n: usize) -> bool
    ensures { result ≡ right_data format.rate format.channels n }
{
    if format.channels < 1 || format.channels > 2 {
        return false;
    }
    let frame = frame_size(format.rate, format.channels as usize);
    n % frame == 0 && n / frame <= MOST_FRAMES && n <= 4294967259
}

// ---- reading

// The rate and the channels of the one header that can be right, from a byte of each: any other byte gives a header
// that the file does not have, so these need no refusal and no `TryFrom`, which would name one.
#[tactic(auto, unfolding(crate::specs::inner::Deciding::rate_of_byte))]
fn rate_of(x: u8) -> PcmRate
    ensures { result ≡ deciding.rate_of_byte x }
{
    match x {
        136 => PcmRate::Hz88200,
        16 => PcmRate::Hz176400,
        _ => PcmRate::Hz352800,
    }
}

#[tactic(auto, unfolding(crate::specs::inner::Deciding::channels_of))]
fn channels_of(x: u8) -> u8
    ensures { (result ≡ deciding.channels_of x) × (result ≤ 2) }
{
    match x {
        1 => 1,
        _ => 2,
    }
}

// Whether a file begins with the header of this format and so many bytes of data.
fn has_header(file: &[u8], format: WavFormat, n: usize) -> bool
    requires { (44 ≤ length file.now) × (format.channels ≤ 2) × (n ≤ most_data) }
    ensures { result ≡ same (take 44 file.now) (header (codes.hertz format.rate) format.channels n) }
{
    let mut head = [0u8; 44];
    put_header(format.rate, format.channels, n, &mut head);
    &file[..44] == &head[..]
}

// Rate and channels of a file.
pub fn read(file: &[u8]) -> Result<WavFormat, PcmError>
    ensures { ReadPromise file.now result }
{
    if file.len() < 44 {
        return Err(PcmError::NotWav);
    }
    let rate = rate_of(file[24]);
    let channels = channels_of(file[22]);
    let format = WavFormat { rate, channels };
    let n = file.len() - 44;
    if right_data(format, n) && has_header(file, format, n) {
        return Ok(format);
    }
    Err(PcmError::NotWav)
}

// The sample bytes of a file: a part of it, empty where the reader refuses it.
pub fn samples_of<'a>(file: &'a [u8]) -> &'a [u8]
    ensures { result.now ≡ file_samples file.now }
{
    match read(file) {
        Ok(_) => &file[44..],
        Err(_) => &file[..0],
    }
}

// ---- writing

// A file from rate, channels and sample bytes.
pub fn write(rate: PcmRate, channels: u8, bytes: &[u8], out: &mut [u8]) -> Result<(), PcmError>
    ensures { WritePromise rate channels bytes.now out.old out.new result }
{
    let n = bytes.len();
    if !right_data(WavFormat { rate, channels }, n) {
        return Err(PcmError::NotWav);
    }
    let expected = 44 + n;
    let length = out.len();
    if length != expected {
        return Err(PcmError::OutputBytes(length, expected));
    }
    put_header(rate, channels, n, out);
    out[44..].copy_from_slice(bytes);
    Ok(())
}
