// What a call is given: settings, the first 92 bytes of each track's file end to end, and the files' lengths.
ghost use Rattle.std.specs.Prelude.{◌≡◌};
ghost use Rattle.codes.specs.inner.Codes.{if_known};
ghost use Rattle.c_tracks.specs.Asked as calls;
ghost use Rattle.c_tracks.specs.inner.Asked.{as_asked};

use c_converter::Blocks;
use reference::Settings;
use tracks_open::Tracks;

#[derive(Clone, Copy)]
pub struct Asked<'a> {
    pub numbers: &'a [u64; 8],
    pub gain: &'a [f64; 2],
    pub taps: &'a [i32; 117],
    pub tracks: Tracks<'a>,
}

// Whether there are 1 to 99 tracks, and 92 bytes for each.
fn fitting(tracks: Tracks<'_>) -> bool
    ensures { result ≡ calls.lists_match tracks.entry.heads.now tracks.entry.lengths.now }
{
    let n = tracks.lengths.len();
    1 <= n && n <= 99 && tracks.heads.len() == 92 * n
}

impl Asked<'_> {
    // The settings that known numbers stand for, where the lists fit.
    #[tactic(auto, using(crate::proofs::Known::unfit, crate::proofs::Known::as_known))]
    pub fn settings(self) -> Option<Settings>
        ensures { result ≡ if_known (calls.asked_known (as_asked self.entry)) (calls.asked_settings (as_asked self.entry)) }
    {
        if !fitting(self.tracks) {
            return None;
        }
        let blocks = Blocks {
            numbers: self.numbers,
            gain: self.gain,
            taps: self.taps,
        };
        blocks.settings()
    }
}
