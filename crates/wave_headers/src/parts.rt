// The parts of a header, and the header of its parts.
ghost use Rattle.std.specs.Prelude.{◌≡◌, true, ◌++◌, ◌+◌, ◌≤◌, length};
ghost use Rattle.text.specs.Text.{joined, with_text};
ghost use Rattle.wav_header.specs.inner.Parts as parts;
ghost use Rattle.wave_headers.specs.Headers as headers;
ghost use Rattle.wave_headers.specs.Choice.{holds, most_of_kind};
ghost use Rattle.wave_headers.specs.inner.Parts.{HeaderArgs};

use crate::HeaderKind;
use text::Text;
use wav_header::{data_head, format, riff};

// In place of a size that `ds64` tells.
const ELSEWHERE: u64 = 4294967295;

// `RF64`, no size, `WAVE`; `ds64` with its own size, the file's, the data's and the number of samples, and no table.
fn rf64(size: u64, n: u64, count: u64) -> [u8; 48]
    ensures { result ≡ joined (headers.rf64 size n count) }
{
    let mut rf64 =
        *b"RF64\xff\xff\xff\xffWAVEds64\x1c\0\0\0\0\0\0\0\0\0\0\0\0\0\0\0\0\0\0\0\0\0\0\0\0\0\0\0\0\0\0\0";
    rf64[20..28].copy_from_slice(&size.to_le_bytes());
    rf64[28..36].copy_from_slice(&n.to_le_bytes());
    rf64[36..44].copy_from_slice(&count.to_le_bytes());
    rf64
}

// The plain format with tag 0xFFFE, and what is added: its size, the bits that count, the loudspeakers, the sub-format.
fn extensible_format(rate: u64, channels: u64, mask: u32) -> [u8; 48]
    requires { (rate ≤ 352800) × (channels ≤ 6) }
    ensures { result ≡ joined (headers.extensible_format rate channels mask) }
{
    let plain = format(rate, channels);
    let mut format =
        *b"fmt \x28\0\0\0\xfe\xff\0\0\0\0\0\0\0\0\0\0\0\0\0\0\x16\0\x18\0\0\0\0\0\x01\0\0\0\0\0\x10\0\x80\0\0\xaa\0\x38\x9b\x71";
    format[10..24].copy_from_slice(&plain[10..]);
    format[28..32].copy_from_slice(&mask.to_le_bytes());
    format
}

// All that follows the first eight bytes.
#[tactic(auto, using(crate::proofs::Choosing::held_size), unfolding(crate::specs::Headers::riff_size, crate::specs::Headers::pad))]
fn riff_size(kind: HeaderKind, n: u64) -> u64
    requires { holds kind n ≡ true }
    ensures { (result ≡ headers.riff_size kind n) × (result ≤ most_of_kind kind) }
{
    kind.header_length() - 8 + n + n % 2
}

// The file's chunk, the format's, and the head of the data's, one after the other.
fn put_three(first: &[u8], second: &[u8], size: u64, out: &mut [u8])
    requires { length first.now + (length second.now + 8) ≤ length out.old }
    ensures { out.new ≡ with_text out.old 0 (first.now ++ (second.now ++ parts.data_head size)) }
{
    let mut text = Text { out, at: 0 };
    text.put(first);
    text.put(second);
    text.put(&data_head(size));
}

// A header.
pub fn put(kind: HeaderKind, rate: u64, channels: u64, mask: u32, n: u64, out: &mut [u8])
    requires { HeaderArgs kind rate channels n (length out.old) }
    ensures { out.new ≡ with_text out.old 0 (headers.kind_header kind rate channels mask n) }
{
    let size = riff_size(kind, n);
    let count = n / (3 * channels);
    match kind {
        HeaderKind::Plain => put_three(&riff(size), &format(rate, channels), n, out),
        HeaderKind::Extensible => {
            put_three(
                &riff(size),
                &extensible_format(rate, channels, mask),
                n,
                out,
            )
        }
        HeaderKind::Rf64 => {
            put_three(
                &rf64(size, n, count),
                &format(rate, channels),
                ELSEWHERE,
                out,
            )
        }
        HeaderKind::Rf64Extensible => {
            let format = extensible_format(rate, channels, mask);
            put_three(&rf64(size, n, count), &format, ELSEWHERE, out)
        }
    }
}
