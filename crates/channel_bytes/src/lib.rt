// Module 3: the bytes of one channel, gathered from the frames that hold them.
#![tactic(auto)]

ghost use Rattle.std.specs.Prelude.{◌≡◌, ◌+◌, ◌*◌, ◌/◌, ◌≤◌, ◌<◌, length, get_or};
ghost use Rattle.numbers.specs.inner.Lists.{Held};
ghost use Rattle.reference.specs.Frames.{frame_length};
ghost use Rattle.channel_bytes.specs.inner.Lent.{frame_part};
ghost use Rattle.channel_bytes.specs.inner.Runs.{slices_bytes};

use reference::FRAME_BYTES;

mod slices;

pub use slices::Slices;

// What a position that no frame holds reads.
const IDLE: u8 = 0x69;

// Bytes of a channel of a frame, from its byte `offset` on, to every place. A part, which may be nothing, is no
// `Slices`: its channels and the channel come one by one, here and in `copy`.
fn pick(part: &[u8], channels: usize, channel: usize, offset: usize, places: &mut [u8])
    requires { (channels ≤ 6) × (channel < channels) × (offset + length places.old ≤ 4704) × (length part.now ≡ frame_length channels) }
    ensures { Held 0 (λ j. get_or part.now (j * channels + channel) 0x69) offset (length places.old) places.new }
{
    for (j, place) in places.iter_mut().enumerate() {
        *place = part[(offset + j) * channels + channel];
    }
}

// Bytes of a channel of a part that is a frame, from its byte `offset` on, or idle bytes if it is nothing, to every
// place.
fn copy(part: &[u8], channels: usize, channel: usize, offset: usize, places: &mut [u8])
    requires { (channels ≤ 6) × (channel < channels) × (offset + length places.old ≤ 4704) × (0 < length part.now → length part.now ≡ frame_length channels) }
    ensures { Held 0 (λ j. get_or part.now (j * channels + channel) 0x69) offset (length places.old) places.new }
{
    if part.is_empty() {
        places.fill(IDLE);
    } else {
        pick(part, channels, channel, offset, places);
    }
}

impl<'a> Slices<'a> {
    // The frame that holds a position, as a part of the slice that it came from; an empty part where no slice holds it.
    fn frame_at(&self, position: usize) -> &'a [u8]
        ensures { result.now ≡ frame_part self.now.channels self.now.count self.now.before.now self.now.frames.now self.now.after.now (position / 4704) }
    {
        let q = position / FRAME_BYTES;
        if q == 0 {
            return self.before;
        }
        if q <= self.count {
            let size = FRAME_BYTES * self.channels;
            let start = (q - 1) * size;
            return &self.frames[start..start + size];
        }
        if q == self.count + 1 {
            return self.after;
        }
        &self.frames[..0]
    }

    // The bytes of a channel from a position on, as many as `bytes` has places; idle where no frame holds the position.
    pub fn gather(&self, channel: usize, position: usize, bytes: &mut [u8])
        requires { (channel < self.now.channels) × (position + length bytes.old < 18446744073709551616) }
        ensures { Held 0 (slices_bytes self.now channel) position (length bytes.old) bytes.new }
    {
        let mut k = 0;
        // Each turn goes to the end of a frame, or of the places.
        while k < bytes.len() {
            let part = self.frame_at(position + k);
            let offset = (position + k) % FRAME_BYTES;
            let end = k + (FRAME_BYTES - offset).min(bytes.len() - k);
            copy(part, self.channels, channel, offset, &mut bytes[k..end]);
            k = end;
        }
    }
}
