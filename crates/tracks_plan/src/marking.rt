// Which samples are a track's.
ghost use Rattle.std.specs.Prelude.{◌≡◌, ◌+◌, ◌*◌, ◌≤◌, length};
ghost use Rattle.numbers.specs.Lists.{tabulate};
ghost use Rattle.tracks.specs.Tracks as tracks;
ghost use Rattle.tracks.specs.Tracks.{heads_of, data_start};
ghost use Rattle.tracks_plan.specs.inner.Asked.{SizedTracks};

use reference::PcmRate;
use tracks_open::Tracks;

// The first sample that stands on a byte of a channel or behind it.
#[tactic(auto, unfolding(tracks::specs::Tracks::first_sample, tracks::specs::Tracks::bytes_a_sample))]
fn first_sample(rate: PcmRate, place: u64) -> u64
    requires { place ≤ 2540160000 }
    ensures { (result ≡ tracks.first_sample rate place) × (result ≤ place) }
{
    match rate {
        PcmRate::Hz88200 => (place + 3) / 4,
        PcmRate::Hz176400 => (place + 1) / 2,
        PcmRate::Hz352800 => place,
    }
}

// Where its bytes stand in the album's data.
#[tactic(auto, using(crate::proofs::Sizes::mark_bound))]
fn mark(rate: PcmRate, channels: u64, place: u64) -> u64
    requires { (place ≤ 2540160000) × (channels ≤ 6) }
    ensures { result ≡ tracks.first_sample rate place * (3 * channels) }
{
    first_sample(rate, place) * (3 * channels)
}

// Where each track's bytes begin in the album's data, and where the last's end.
pub fn marks(rate: PcmRate, channels: u64, tracks: Tracks<'_>, out: &mut [u64])
    requires { SizedTracks tracks.heads.now tracks.lengths.now × (channels ≤ 6) × (length out.old ≡ length tracks.lengths.now + 1) }
    ensures { out.new ≡ tabulate (data_start rate channels (heads_of tracks.entry.heads.now tracks.entry.lengths.now)) 0 (length tracks.entry.lengths.now + 1) }
{
    let mut place = 0;
    for k in 0..tracks.lengths.len() {
        out[k] = mark(rate, channels, place);
        place += tracks.length(k);
    }
    out[tracks.lengths.len()] = mark(rate, channels, place);
}
