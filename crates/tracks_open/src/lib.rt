// An album that comes as tracks, opened: each track's header is tried in its turn, and one that is refused is named.
#![tactic(auto)]

ghost use Rattle.std.specs.Prelude.{◌≡◌, [], ◌∷◌, ◌+◌, ◌*◌, ◌≤◌, ◌<◌, length};
ghost use Rattle.reference.specs.Refusals.{decision, decide};
ghost use Rattle.wav_format.specs.Wav as wav;
ghost use Rattle.tracks.specs.Tracks as tracks;
ghost use Rattle.tracks.specs.Tracks.{heads_of, head_at, head_length, settings_for, too_long};
ghost use Rattle.tracks_open.specs.Open as albums;
ghost use Rattle.tracks_open.specs.inner.Open.{TracksArgs, OpenPromise};
ghost use Rattle.tracks_open.specs.inner.Trying.{a_head, opened_places, other_type, joined_places, FirstTried, NextTried, RestTried, NumbersArgs, most_bytes};

use dsf::{DsfHeader, number, read_header};
use reference::{FRAME_BYTES, MOST_FRAMES, PcmError, PcmRate, Settings};
use refusals::opening;

// What is known of the tracks' files before their data are read: the first 92 bytes of each, end to end, and their
// lengths.
#[derive(Clone, Copy)]
pub struct Tracks<'a> {
    pub heads: &'a [u8],
    pub lengths: &'a [u64],
}

impl<'a> Tracks<'a> {
    // The first bytes of track k.
    #[tactic(auto, using(crate::proofs::Heads::head_within))]
    pub fn head(self, k: usize) -> &'a [u8]
        requires { TracksArgs self.heads.now self.lengths.now × (k < length self.lengths.now) }
        ensures { result.now ≡ (head_at self.entry.heads.now self.entry.lengths.now k).bytes }
    {
        &self.heads[92 * k..92 * k + 92]
    }

    // Bytes of each channel of track k.
    #[tactic(auto, unfolding(tracks::specs::Tracks::head_length, dsf::specs::Dsf::sample_count))]
    pub fn length(self, k: usize) -> u64
        requires { TracksArgs self.heads.now self.lengths.now × (k < length self.lengths.now) }
        ensures { result ≡ head_length (head_at self.entry.heads.now self.entry.lengths.now k) }
    {
        number(self.head(k), 64, 8) / 8
    }
}

// An album's numbers: bytes of each channel, frames, bytes of its samples and of a frame's, how many bytes of each
// channel are filled up in the last frame, and pieces of the plan.
#[derive(Clone, Copy)]
pub struct Album {
    pub channels: u64,
    pub channel_type: u64,
    pub bytes: u64,
    pub frames: u64,
    pub data: u64,
    pub frame: u64,
    pub filled: u64,
    pub pieces: u64,
}

// The track that is refused, and why.
#[derive(Clone, Copy)]
pub struct Refused {
    pub track: u64,
    pub error: PcmError,
}

// The settings with the album's channels.
pub fn settings_of(settings: Settings, channels: u8) -> Settings
    ensures { result ≡ settings_for settings channels }
{
    Settings {
        rate: settings.rate,
        cutoff: settings.cutoff,
        channels,
        gain: settings.gain,
        filter: settings.filter,
    }
}

// So many bytes of each channel make no more frames than a run may have.
#[tactic(auto, using(crate::proofs::Trying::too_many_frames, crate::proofs::Trying::few_frames), unfolding(tracks::specs::Tracks::frames_of_bytes))]
fn few(bytes: u64) -> Result<(), PcmError>
    requires { bytes ≤ most_bytes }
    ensures { decision result ≡ decide (too_long bytes ∷ []) }
{
    let frames = bytes.div_ceil(FRAME_BYTES as u64);
    if frames > MOST_FRAMES as u64 {
        return Err(PcmError::Frames(frames as usize));
    }
    Ok(())
}

// What is tried of the first track after its header.
#[tactic(auto, using(refusals::proofs::Steps::one_after))]
fn opened(settings: Settings, header: DsfHeader) -> Result<(), PcmError>
    requires { header.channels ≤ 6 }
    ensures { decision result ≡ decide (opened_places settings header) }
{
    let channels = header.channels as u8;
    opening(settings_of(settings, channels)).and(few(header.samples / 8))
}

// The first track.
#[tactic(auto, using(crate::proofs::Trying::few_channels, crate::proofs::Trying::first_stops, crate::proofs::Trying::first_refused, crate::proofs::Trying::first_taken))]
fn first(head: &[u8], length: u64, settings: Settings) -> Result<DsfHeader, PcmError>
    ensures { FirstTried (a_head head.now «length») settings result }
{
    let header = read_header(head, length)?;
    opened(settings, header)?;
    Ok(header)
}

// The channel type is the first track's.
#[tactic(auto, using(crate::proofs::Trying::another_type, crate::proofs::Trying::same_type))]
fn alike(header: DsfHeader, channel_type: u64) -> Result<(), PcmError>
    ensures { decision result ≡ decide (other_type channel_type header.channel_type ∷ []) }
{
    if header.channel_type != channel_type {
        return Err(PcmError::NotDsf);
    }
    Ok(())
}

// What is tried of another track after its header; all tracks up to it have so many bytes of each channel.
#[tactic(auto, using(crate::proofs::Trying::two_places))]
fn joined(header: DsfHeader, channel_type: u64, end: u64) -> Result<(), PcmError>
    requires { end ≤ most_bytes }
    ensures { decision result ≡ decide (joined_places channel_type end header) }
{
    alike(header, channel_type).and(few(end))
}

// Another track, behind so many bytes of each channel: its end.
#[tactic(auto, using(crate::proofs::Trying::next_stops, crate::proofs::Trying::next_refused, crate::proofs::Trying::next_taken))]
fn next(head: &[u8], length: u64, channel_type: u64, before: u64) -> Result<u64, PcmError>
    requires { before ≤ 2540160000 }
    ensures { NextTried (a_head head.now «length») channel_type before result }
{
    let header = read_header(head, length)?;
    let end = before + header.samples / 8;
    joined(header, channel_type, end)?;
    Ok(end)
}

// The tracks behind the first: bytes of each channel of all.
#[tactic(auto, using(crate::proofs::Following::none_yet, crate::proofs::Following::one_refused, crate::proofs::Following::one_more, crate::proofs::Following::all_taken))]
fn rest(tracks: Tracks<'_>, channel_type: u64, bytes: u64) -> Result<u64, Refused>
    requires { TracksArgs tracks.heads.now tracks.lengths.now × (bytes ≤ 2540160000) }
    ensures { RestTried tracks.entry.heads.now tracks.entry.lengths.now channel_type bytes result }
{
    let mut end = bytes;
    for k in 1..tracks.lengths.len() {
        match next(tracks.head(k), tracks.lengths[k], channel_type, end) {
            Ok(there) => end = there,
            Err(error) => {
                return Err(Refused {
                    track: k as u64,
                    error,
                });
            }
        }
    }
    Ok(end)
}

// Bytes of the samples of a frame, all channels.
#[tactic(auto, using(crate::proofs::Bounds::frame_bound), unfolding(wav_format::specs::Wav::frame_size))]
fn frame_size(rate: PcmRate, channels: u64) -> u64
    requires { channels ≤ 6 }
    ensures { (result ≡ wav.frame_size rate channels) × (result ≤ 84672) }
{
    3 * rate.samples_per_frame() as u64 * channels
}

#[tactic(auto, using(crate::proofs::Bounds::bytes_bound, crate::proofs::Bounds::frames_cover, crate::proofs::Bounds::frames_few), unfolding(crate::specs::Open::numbers, crate::specs::Open::piece_total, tracks::specs::Tracks::frames_of_bytes))]
fn numbers(rate: PcmRate, header: DsfHeader, bytes: u64) -> Album
    requires { NumbersArgs header.channels bytes }
    ensures { result ≡ albums.numbers rate header.channels header.channel_type bytes }
{
    let frames = bytes.div_ceil(FRAME_BYTES as u64);
    let frame = frame_size(rate, header.channels);
    Album {
        channels: header.channels,
        channel_type: header.channel_type,
        bytes,
        frames,
        data: frames * frame,
        frame,
        filled: frames * FRAME_BYTES as u64 - bytes,
        pieces: frames.div_ceil(128),
    }
}

// Opens an album.
pub fn open(tracks: Tracks<'_>, settings: Settings) -> Result<Album, Refused>
    requires { TracksArgs tracks.heads.now tracks.lengths.now }
    ensures { OpenPromise (heads_of tracks.entry.heads.now tracks.entry.lengths.now) settings result }
{
    let header = match first(tracks.head(0), tracks.lengths[0], settings) {
        Ok(header) => header,
        Err(error) => return Err(Refused { track: 0, error }),
    };
    let bytes = rest(tracks, header.channel_type, header.samples / 8)?;
    Ok(numbers(settings.rate, header, bytes))
}
