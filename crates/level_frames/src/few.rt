// A converter for the level report, and how large its frames are.
ghost use Rattle.std.specs.Prelude.{◌≡◌, ◌*◌, ◌≤◌};
ghost use Rattle.reference.specs.Frames.{frame_length};
ghost use Rattle.reference.specs.Output.{samples_per_frame};
ghost use Rattle.reference.specs.Refusals.{accepted, decide, held_places};

use reference::Converter;

// An accepted converter of one or two channels.
#[derive(Clone, Copy)]
pub struct FewChannels {
    pub conv: Converter,
    pub ghost opened: { decide (held_places conv) ≡ accepted },
    pub ghost few: { conv.channels ≤ 2 },
}

impl FewChannels {
    // Bytes of a frame.
    pub fn size(self) -> usize
        ensures size { result ≡ frame_length self.conv.channels }
        ensures upper_bound { result ≤ 9408 }
    {
        reference::FRAME_BYTES * self.conv.channels as usize
    }

    // Samples of a frame, over all channels.
    pub fn items(self) -> usize
        ensures items { result ≡ samples_per_frame self.conv.rate * self.conv.channels }
        ensures upper_bound { result ≤ 9408 }
    {
        scarletbook_pcm::samples_per_frame(self.conv.rate) * self.conv.channels as usize
    }
}
