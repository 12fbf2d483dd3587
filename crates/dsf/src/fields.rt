// The fields that the document fixes, tested as far as a file goes, and the data that a file needs.
ghost use Rattle.std.specs.Prelude.{◌≡◌, true, ◌+◌, ◌*◌, ◌^◌, ◌≤◌, drop};
ghost use Rattle.dsf.specs.Dsf.{fixed, pairs, orders, layout, frequency, alike, all, fits, data_bytes, needed};

use crate::bytes::number;

// Whether a file has a value from a place on, as far as the file goes.
fn agrees(file: &[u8], start: usize, value: &[u8]) -> bool
    ensures { result ≡ alike (drop start file.now) value.now }
{
    let rest = &file[start.min(file.len())..];
    for k in 0..rest.len().min(value.len()) {
        if rest[k] != value[k] {
            return false;
        }
    }
    true
}

// A field that has one value.
#[tactic(auto, using(crate::proofs::Tests::fits_fixed))]
pub fn holds(file: &[u8], start: usize, value: &[u8]) -> bool
    ensures { result ≡ fits file.now (fixed start value.now) }
{
    agrees(file, start, value)
}

// A channel type with its channels.
#[tactic(auto, unfolding(crate::specs::Dsf::pairs, crate::specs::Dsf::fits, crate::specs::Dsf::any, text::specs::Bytes::bytes))]
fn right_pair(file: &[u8]) -> bool
    ensures { result ≡ fits file.now pairs }
{
    agrees(file, 48, b"\x01\0\0\0\x01\0\0\0")
        || agrees(file, 48, b"\x02\0\0\0\x02\0\0\0")
        || agrees(file, 48, b"\x03\0\0\0\x03\0\0\0")
        || agrees(file, 48, b"\x04\0\0\0\x04\0\0\0")
        || agrees(file, 48, b"\x05\0\0\0\x04\0\0\0")
        || agrees(file, 48, b"\x06\0\0\0\x05\0\0\0")
        || agrees(file, 48, b"\x07\0\0\0\x06\0\0\0")
}

// Bits per sample: lowest bit first, or highest.
#[tactic(auto, unfolding(crate::specs::Dsf::orders, crate::specs::Dsf::fits, crate::specs::Dsf::any, text::specs::Bytes::bytes))]
fn right_order(file: &[u8]) -> bool
    ensures { result ≡ fits file.now orders }
{
    agrees(file, 60, b"\x01\0\0\0") || agrees(file, 60, b"\x08\0\0\0")
}

// The fields of refusal 9.
#[tactic(auto, unfolding(crate::specs::Dsf::layout, crate::specs::Dsf::all, text::specs::Text::text, text::specs::Bytes::bytes))]
pub fn laid_out(file: &[u8]) -> bool
    ensures { result ≡ all (fits file.now) layout }
{
    holds(file, 0, b"DSD ")
        && holds(file, 4, b"\x1c\0\0\0\0\0\0\0")
        && holds(file, 28, b"fmt ")
        && holds(file, 32, b"\x34\0\0\0\0\0\0\0")
        && holds(file, 40, b"\x01\0\0\0")
        && holds(file, 44, b"\0\0\0\0")
        && right_pair(file)
        && right_order(file)
        && holds(file, 72, b"\0\x10\0\0")
        && holds(file, 76, b"\0\0\0\0")
        && holds(file, 80, b"data")
}

// The frequency, refusal 10.
#[tactic(auto, unfolding(crate::specs::Dsf::frequency, text::specs::Bytes::bytes))]
pub fn at_frequency(file: &[u8]) -> bool
    ensures { result ≡ fits file.now frequency }
{
    holds(file, 56, b"\0\x11\x2b\0")
}

// The data's bytes.
#[tactic(auto, using(crate::proofs::Sizes::product_fits), unfolding(crate::specs::Dsf::data_bytes, crate::specs::Dsf::blocks))]
pub fn data_bytes(samples: u64, channels: u64) -> u64
    requires { channels ≤ 6 }
    ensures { (result ≡ data_bytes samples channels) × (result ≤ 6 * (2 ^ 61 + 4095)) }
{
    (samples / 8 + 4095) / 4096 * 4096 * channels
}

// The data's bytes that a file's sample count and channels need.
#[tactic(auto, using(crate::proofs::Tests::channels_few), unfolding(crate::specs::Dsf::needed, crate::specs::Dsf::sample_count, crate::specs::Dsf::channels))]
pub fn needs(file: &[u8]) -> u64
    requires { all (fits file.now) layout ≡ true }
    ensures { (result ≡ needed file.now) × (result ≤ 6 * (2 ^ 61 + 4095)) }
{
    data_bytes(number(file, 64, 8), number(file, 52, 4))
}
