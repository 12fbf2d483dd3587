// A run as it is lent.
ghost use Rattle.channel_bytes.specs.inner.Lent.{Lent};

// The frame before the run or nothing, its frames, the frame after it or nothing; its frames are so many, of so many
// channels. The count stands beside the slice: it is divided out once a run, and not for each block of each channel.
#[derive(Clone, Copy)]
pub struct Slices<'a> {
    pub before: &'a [u8],
    pub frames: &'a [u8],
    pub after: &'a [u8],
    pub channels: usize,
    pub count: usize,
    ghost lent: { Lent channels count before.now frames.now after.now },
}
