// A DSF file's header, in Sony's layout: what is refused, and what the file holds. The definition is in specs/.
#![tactic(auto)]

ghost use Rattle.std.specs.Prelude.{◌≡◌};
ghost use Rattle.dsf.specs.inner.Orders.{bit_order};

mod bytes;
mod fields;
mod header;

pub use bytes::number;
pub use fields::{at_frequency, data_bytes, holds, laid_out, needs};
pub use header::{header_numbers, read, read_header};

// What a file holds: samples of one channel, and frames, the last perhaps short.
#[derive(Clone, Copy)]
pub struct DsfHeader {
    pub channel_type: u64,
    pub channels: u64,
    pub bits_per_sample: u64,
    pub samples: u64,
    pub frames: u64,
}

// Which bit of a byte is its first sample.
#[derive(Clone, Copy)]
pub enum BitOrder {
    LowestFirst,
    HighestFirst,
}

impl DsfHeader {
    // By the bits per sample, which are 1 or 8 in a file that is accepted.
    pub fn bit_order(self) -> BitOrder
        ensures { result ≡ bit_order self.bits_per_sample }
    {
        if self.bits_per_sample == 1 {
            return BitOrder::LowestFirst;
        }
        BitOrder::HighestFirst
    }
}
