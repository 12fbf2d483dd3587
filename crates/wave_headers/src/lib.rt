// Headers of WAV files of four kinds: the plain one; for more than two channels the one that names loudspeakers; and
// for data past 32 bits RF64 with the format of either. The definitions are in specs/.
#![tactic(auto)]

ghost use Rattle.std.specs.Prelude.{◌≡◌, ◌*◌, length};
ghost use Rattle.wave_headers.specs.Speakers as speakers;
ghost use Rattle.wave_headers.specs.Headers as headers;
ghost use Rattle.wave_headers.specs.Choice as choice;
ghost use Rattle.wave_headers.specs.Promises.{HeaderPromise};

mod parts;

use parts::put;
use reference::{PcmError, PcmRate};
use text::Text;

#[derive(Clone, Copy, PartialEq, Eq)]
pub enum HeaderKind {
    Plain,
    Extensible,
    Rf64,
    Rf64Extensible,
}

// What is asked for: the header that holds the data, the plain one, or RF64.
#[derive(Clone, Copy, PartialEq, Eq)]
pub enum Format {
    Auto,
    Wav,
    Rf64,
}

impl HeaderKind {
    // Its bytes.
    fn header_length(self) -> u64
        ensures { result ≡ headers.header_length self }
    {
        match self {
            HeaderKind::Plain => 44,
            HeaderKind::Extensible => 68,
            HeaderKind::Rf64 => 80,
            HeaderKind::Rf64Extensible => 104,
        }
    }

    // Whether its size fields tell so much data: the header's rest and the pad byte count.
    #[tactic(auto, using(crate::proofs::Choosing::plain_most, crate::proofs::Choosing::extensible_most, crate::proofs::Choosing::long_most, crate::proofs::Choosing::long_extensible_most))]
    fn holds(self, n: u64) -> bool
        ensures { result ≡ choice.holds self n }
    {
        match self {
            HeaderKind::Plain => n <= 4294967258,
            HeaderKind::Extensible => n <= 4294967234,
            HeaderKind::Rf64 => n <= 18446744073709551542,
            HeaderKind::Rf64Extensible => n <= 18446744073709551518,
        }
    }
}

// Of so many channels: one or two need no loudspeakers named.
#[tactic(auto, unfolding(crate::specs::Choice::short))]
fn short(channels: u64) -> HeaderKind
    ensures { result ≡ choice.short channels }
{
    if channels <= 2 {
        HeaderKind::Plain
    } else {
        HeaderKind::Extensible
    }
}

#[tactic(auto, unfolding(crate::specs::Choice::long))]
fn long(channels: u64) -> HeaderKind
    ensures { result ≡ choice.long channels }
{
    if channels <= 2 {
        HeaderKind::Rf64
    } else {
        HeaderKind::Rf64Extensible
    }
}

// The kind of a file's header.
#[tactic(auto, unfolding(crate::specs::Choice::kind_of))]
fn kind_of(format: Format, channels: u64, n: u64) -> HeaderKind
    ensures { result ≡ choice.kind_of format channels n }
{
    match format {
        Format::Wav => HeaderKind::Plain,
        Format::Auto if short(channels).holds(n) => short(channels),
        _ => long(channels),
    }
}

// How many loudspeakers a channel type has, and their mask.
#[tactic(auto, unfolding(crate::specs::Speakers::loudspeakers, crate::specs::Speakers::mask))]
fn speakers_of(channel_type: u64) -> (u64, u32)
    ensures { (result.0 ≡ length (speakers.loudspeakers «channel_type»)) × (result.1 ≡ speakers.mask «channel_type») }
{
    match channel_type {
        1 => (1, 4),
        2 => (2, 3),
        3 => (3, 7),
        4 => (4, 51),
        5 => (4, 15),
        6 => (5, 55),
        7 => (6, 63),
        _ => (0, 0),
    }
}

// Whether each channel has a loudspeaker.
#[tactic(auto, unfolding(crate::specs::Choice::placed))]
fn placed(channels: u64, channel_type: u64) -> bool
    ensures { result ≡ choice.placed channels «channel_type» }
{
    1 <= channels && channels == speakers_of(channel_type).0
}

// Whether there is a file of these channels of a type, with so much data.
#[tactic(auto, using(crate::proofs::Choosing::few_placed), unfolding(crate::specs::Choice::writable, crate::specs::Choice::whole_samples, crate::specs::Choice::kind_of))]
fn writable(format: Format, channels: u64, channel_type: u64, n: u64) -> bool
    ensures { result ≡ choice.writable format channels «channel_type» n }
{
    if !placed(channels, channel_type) || n % (3 * channels) != 0 {
        return false;
    }
    match format {
        Format::Wav => channels <= 2 && HeaderKind::Plain.holds(n),
        _ => kind_of(format, channels, n).holds(n),
    }
}

// Writes a header into the first bytes, and answers its length; what is behind it stays.
pub fn header(
    format: Format,
    rate: PcmRate,
    channels: u64,
    channel_type: u64,
    n: u64,
    out: &mut [u8; 104],
) -> Result<u64, PcmError>
    ensures { HeaderPromise format rate channels «channel_type» n out.old out.new result }
{
    if !writable(format, channels, channel_type, n) {
        return Err(PcmError::NotWav);
    }
    let kind = kind_of(format, channels, n);
    let (_, mask) = speakers_of(channel_type);
    put(kind, u64::from(rate), channels, mask, n, out);
    Ok(kind.header_length())
}
