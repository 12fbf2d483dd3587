// What is told of an answer that may name a track.
ghost use Rattle.std.specs.Prelude.{◌≡◌};
ghost use Rattle.c_tracks.specs.inner.Told as told;

use reference::PcmError;
use tracks_open::{Album, Refused};

// The answer without its track.
pub fn reason<T>(answer: Result<T, Refused>) -> Result<T, PcmError>
    ensures { result ≡ told.reason answer }
{
    match answer {
        Ok(made) => Ok(made),
        Err(refused) => Err(refused.error),
    }
}

// The track that an opening names; 0 where it is accepted.
pub fn named(opened: &Result<Album, Refused>) -> u64
    ensures { result ≡ told.named opened.now }
{
    match opened {
        Ok(_) => 0,
        Err(refused) => refused.track,
    }
}

// An album's numbers are written where it is accepted.
pub fn tell_album(opened: &Result<Album, Refused>, list: &mut [u64; 8])
    ensures { list.new ≡ told.album_after opened.now list.old }
{
    if let Ok(a) = opened {
        *list = [
            a.channels,
            a.channel_type,
            a.bytes,
            a.frames,
            a.data,
            a.frame,
            a.filled,
            a.pieces,
        ];
    }
}
