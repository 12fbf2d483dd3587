// A channel of a frame: pieces of its blocks through a table of bytes, and idle bytes past the data.
ghost use Rattle.std.specs.Prelude.{◌+◌, ◌*◌, ◌≤◌, ◌<◌, ◌^◌, length, get_or};
ghost use Rattle.numbers.specs.inner.Lists.{Written};
ghost use Rattle.reference.specs.Frames.{idle, frame_bytes};
ghost use Rattle.dsf_columns.specs.inner.Columns.{column_byte, ColumnArgs};

use reference::FRAME_BYTES;

// Some bytes of the data, and where in the data they start.
#[derive(Clone, Copy)]
pub struct Stretch<'a> {
    pub bytes: &'a [u8],
    pub start: u64,
}

// A contiguous piece through a table, into places at a stride.
pub fn spread(src: &[u8], table: &[u8; 256], at: usize, stride: usize, out: &mut [u8])
    requires { (1 ≤ stride) × (at + length src.now * stride < length out.old + stride) × (length out.old + stride < 2 ^ 64) }
    ensures { Written 0 (λ i. at + i * stride) (λ i. get_or table.now (get_or src.now i 0) 0) (length src.now) out.old out.new }
{
    for k in 0..src.len() {
        out[at + k * stride] = table[src[k] as usize];
    }
}

// Idle bytes at a stride.
fn idle_at(count: usize, at: usize, stride: usize, out: &mut [u8])
    requires { (1 ≤ stride) × (at + count * stride < length out.old + stride) × (length out.old + stride < 2 ^ 64) }
    ensures { Written 0 (λ i. at + i * stride) (λ i. idle) count out.old out.new }
{
    for k in 0..count {
        out[at + k * stride] = 105;
    }
}

// Channel `number` of so many in a frame: its bytes `first` to `end` are in the data, and those after them idle.
#[derive(Clone, Copy)]
pub struct Channel {
    pub number: u64,
    pub channels: u64,
    pub first: u64,
    pub end: u64,
}

// A channel of a frame: its pieces, block by block, and idle bytes past the data.
pub fn column(window: &Stretch, table: &[u8; 256], channel: Channel, out: &mut [u8])
    requires { ColumnArgs channel.channels channel.number channel.first channel.end window.now.start (length window.now.bytes.now) (length out.old) }
    ensures { Written 0 (λ i. channel.number + i * channel.channels)
        (column_byte window.now.bytes.now table.now channel.channels channel.first channel.end window.now.start channel.number) frame_bytes out.old out.new }
{
    let stride = channel.channels as usize;
    let mut q = channel.first;
    // From block to block, of which the first and the last may be in the frame in part: no step is that of a `for`.
    while q < channel.end {
        let block = q / 4096;
        let stop = channel.end.min(block * 4096 + 4096);
        let from = ((block * channel.channels + channel.number) * 4096 + q % 4096
            - window.start) as usize;
        let to = from + (stop - q) as usize;
        let at = ((q - channel.first) * channel.channels + channel.number) as usize;
        spread(&window.bytes[from..to], table, at, stride, out);
        q = stop;
    }
    let rest = (channel.first + FRAME_BYTES as u64 - channel.end) as usize;
    let at = ((channel.end - channel.first) * channel.channels + channel.number) as usize;
    idle_at(rest, at, stride, out);
}
