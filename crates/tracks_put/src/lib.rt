// Bytes of a track put into their places of an album's frames.
#![tactic(auto)]

ghost use Rattle.std.specs.Prelude.{◌≡◌, ◌+◌, ◌-◌, ◌*◌, ◌≤◌, length};
ghost use Rattle.numbers.specs.inner.Lists.{Written};
ghost use Rattle.text.specs.Text.{with_text};
ghost use Rattle.text.specs.Bytes.{Bytes};
ghost use Rattle.dsf_frames.specs.Reading.{window_data};
ghost use Rattle.tracks_put.specs.inner.Putting.{table_byte, ChannelArgs, stretch, PutArgs};
ghost use Rattle.tracks_put.specs.inner.Placing.{with_track, with_fill, TrackArgs};

use dsf::DsfHeader;
use dsf_columns::{Channel, Stretch, order_table, spread};

// Bytes of each channel of a track, `from` to `to`, and the byte of each channel of a buffer where they go.
#[derive(Clone, Copy)]
struct Part {
    from: u64,
    to: u64,
    at: u64,
}

// A channel's bytes, block by block through a table, into places at a stride from `at` on.
fn channel(window: &Stretch, table: &[u8; 256], channel: Channel, at: usize, out: &mut [u8])
    requires { ChannelArgs channel.channels channel.number channel.first channel.end window.now.start (length window.now.bytes.now) at (length out.old) }
    ensures { Written 0 (λ i. at + i * channel.channels) (table_byte window.now.bytes.now table.now channel.channels window.now.start channel.number channel.first)
        (channel.end - channel.first) out.old out.new }
{
    let stride = channel.channels as usize;
    let mut q = channel.first;
    let mut j = at;
    // From block to block, of which the first and the last may be asked for in part: no step is that of a `for`.
    while q < channel.end {
        let block = q / 4096;
        let stop = channel.end.min(block * 4096 + 4096);
        let from = ((block * channel.channels + channel.number) * 4096 + q % 4096
            - window.start) as usize;
        let to = from + (stop - q) as usize;
        spread(&window.bytes[from..to], table, j, stride, out);
        j += (stop - q) as usize * stride;
        q = stop;
    }
}

// Tells that a slice's numbers are bytes: of a parameter that is known, of the slice in a `Stretch` it is not.
fn are_bytes(bytes: &[u8])
    ensures { Bytes bytes.now }
{}

// Bytes of each channel of a track, out of a stretch of its data, into a buffer.
fn put(header: DsfHeader, part: Part, window: &Stretch, out: &mut [u8])
    requires { PutArgs header.channels header.samples part window.now.start (length window.now.bytes.now) (length out.old) }
    ensures { out.new ≡ with_text out.old (part.at * header.channels)
        (stretch (window_data window.now.bytes.now window.now.start) header.channels header.bits_per_sample header.samples part.from part.to) }
{
    are_bytes(window.bytes);
    let channels = header.channels;
    let order = header.bit_order();
    let table = order_table(order);
    for number in 0..channels {
        let place = (part.at * channels + number) as usize;
        let asked = Channel {
            number,
            channels,
            first: part.from,
            end: part.to,
        };
        channel(window, &table, asked, place, out);
    }
}

// Bytes of each channel of an album, from the first to the second.
#[derive(Clone, Copy)]
pub struct Span {
    pub from: u64,
    pub to: u64,
}

// Of some bytes of an album, those of a track that begins at a byte of the album, out of a stretch of its data.
pub fn put_track(header: DsfHeader, begins: u64, span: Span, window: &Stretch, out: &mut [u8])
    requires { TrackArgs header.channels header.samples begins span window.now.start (length window.now.bytes.now) (length out.old) }
    ensures { out.new ≡ with_track (window_data window.now.bytes.now window.now.start) header.channels header.bits_per_sample header.samples begins span.from span.to out.old }
{
    let part = Part {
        from: span.from.saturating_sub(begins),
        to: (header.samples / 8).min(span.to.saturating_sub(begins)),
        at: begins.saturating_sub(span.from),
    };
    if part.from < part.to {
        put(header, part, window, out);
    }
}

// Idle bytes from a place on.
pub fn fill(at: usize, out: &mut [u8])
    requires { at ≤ length out.old }
    ensures { out.new ≡ with_fill at out.old }
{
    for j in at..out.len() {
        out[j] = 105;
    }
}
