// The 44 bytes of a WAV file before its data: the file's chunk, the format's, and the head of the data's.
#![tactic(auto)]

ghost use Rattle.std.specs.Prelude.{◌≡◌, ◌++◌, ◌+◌, ◌*◌, ◌≤◌, length, drop};
ghost use Rattle.reference.specs.Codes.{hertz};
ghost use Rattle.wav_header.specs.Header as headers;
ghost use Rattle.wav_header.specs.Header.{most_data};
ghost use Rattle.wav_header.specs.inner.Parts as parts;

use reference::PcmRate;

// `RIFF`, the size of all that follows, `WAVE`.
pub fn riff(size: u64) -> [u8; 12]
    requires { size ≤ 4294967295 }
    ensures { result ≡ parts.riff size }
{
    let mut riff = *b"RIFF\0\0\0\0WAVE";
    riff[4..8].copy_from_slice(&(size as u32).to_le_bytes());
    riff
}

// `fmt `, its size, the tag, channels, rate, bytes a second, bytes of a sample of all channels, bits.
pub fn format(rate: u64, channels: u64) -> [u8; 24]
    requires { (rate ≤ 352800) × (channels ≤ 6) }
    ensures { result ≡ parts.format_part rate channels }
{
    let sample = 3 * channels;
    let second = rate * sample;
    let mut format = *b"fmt \x10\0\0\0\x01\0\0\0\0\0\0\0\0\0\0\0\0\0\x18\0";
    format[10..12].copy_from_slice(&(channels as u16).to_le_bytes());
    format[12..16].copy_from_slice(&(rate as u32).to_le_bytes());
    format[16..20].copy_from_slice(&(second as u32).to_le_bytes());
    format[20..22].copy_from_slice(&(sample as u16).to_le_bytes());
    format
}

// `data`, and its size.
pub fn data_head(n: u64) -> [u8; 8]
    ensures { result ≡ parts.data_head n }
{
    let mut head = *b"data\0\0\0\0";
    head[4..8].copy_from_slice(&n.to_le_bytes()[..4]);
    head
}

// The header in front of what stands behind it.
pub fn put_header(rate: PcmRate, channels: u8, n: usize, out: &mut [u8])
    requires { (channels ≤ 2) × (n ≤ most_data) × (44 ≤ length out.old) }
    ensures { out.new ≡ headers.header (hertz rate) channels n ++ drop 44 out.old }
{
    let size = 36 + n as u64;
    let first = riff(size);
    let second = format(u64::from(rate), channels as u64);
    let third = data_head(n as u64);
    out[0..12].copy_from_slice(&first);
    out[12..36].copy_from_slice(&second);
    out[36..44].copy_from_slice(&third);
}
