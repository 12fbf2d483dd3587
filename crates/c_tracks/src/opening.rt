// An album opened.
ghost use Rattle.std.specs.Prelude.{◌≡◌, ◌+◌, length};
ghost use Rattle.tracks.specs.Tracks.{heads_of};
ghost use Rattle.tracks_open.specs.inner.Open.{TracksArgs, OpenPromise};
ghost use Rattle.c_tracks.specs.inner.Asked.{as_asked};
ghost use Rattle.c_tracks.specs.Calls.{OpenAlbumCall, outputs};
ghost use Rattle.c_tracks.specs.inner.Calls as calls;

use crate::Asked;
use crate::telling::{named, reason, tell_album};
use codes::{NOT_UNDERSTOOD, tell};
use reference::Settings;
use tracks_open::{Album, Refused, Tracks};

// The marks, where it was accepted.
fn put_marks(
    opened: &Result<Album, Refused>,
    settings: Settings,
    tracks: Tracks<'_>,
    marks: &mut [u64],
)
    requires { TracksArgs tracks.heads.now tracks.lengths.now × OpenPromise (heads_of tracks.heads.now tracks.lengths.now) settings opened.now × (length marks.old ≡ length tracks.lengths.now + 1) }
    ensures { marks.new ≡ calls.marks_after opened.now settings (heads_of tracks.entry.heads.now tracks.entry.lengths.now) marks.old }
{
    if let Ok(a) = opened {
        tracks_plan::marks(settings.rate, a.channels, tracks, marks);
    }
}

// Opens an album: its numbers, and where its tracks' data begin. The track that is refused is told.
#[tactic(auto, using(codes::proofs::Calls::turned_away, codes::proofs::Calls::not_left, codes::proofs::Calls::not_right, codes::proofs::Known::none_known))]
pub fn open(
    asked: Asked<'_>,
    album: &mut [u64; 8],
    marks: &mut [u64],
    track: &mut [u64; 1],
    data: &mut [u64; 2],
    decibels: &mut [f64; 1],
) -> u8
    ensures { OpenAlbumCall (as_asked asked.entry) (outputs album.old marks.old track.old «data».old decibels.old) (outputs album.new marks.new track.new «data».new decibels.new) result }
{
    let Some(settings) = asked.settings() else {
        return NOT_UNDERSTOOD;
    };
    if marks.len() != asked.tracks.lengths.len() + 1 {
        return NOT_UNDERSTOOD;
    }
    let opened = tracks_open::open(asked.tracks, settings);
    put_marks(&opened, settings, asked.tracks, marks);
    tell_album(&opened, album);
    *track = [named(&opened)];
    tell(&reason(opened), data, decibels)
}
