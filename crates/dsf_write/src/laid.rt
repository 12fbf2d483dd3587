// The data: the channels' blocks in turn, lowest bit first, zero bytes past the samples.
ghost use Rattle.std.specs.Prelude.{◌+◌, ◌-◌, ◌*◌, ◌<◌, ◌^◌, length, get_or};
ghost use Rattle.numbers.specs.inner.Lists.{Written};
ghost use Rattle.dsf.specs.declared.BitOrder.TheVariants.{LowestFirst};
ghost use Rattle.dsf_columns.specs.inner.Columns.{Ordering};
ghost use Rattle.dsf_write.specs.Written.{written_byte};
ghost use Rattle.dsf_write.specs.inner.Putting.{DataArgs, BlockArgs};

use dsf::BitOrder;
use dsf_columns::order_table;

// Bytes at a stride through a table.
fn gather(frames: &[u8], table: &[u8; 256], from: usize, stride: usize, out: &mut [u8])
    requires { (from + length out.old * stride < length frames.now + stride) × (length frames.now + stride < 2 ^ 64) }
    ensures { Written 0 (λ i. i) (λ i. get_or table.now (get_or frames.now (from + i * stride) 0) 0) (length out.old) out.old out.new }
{
    for k in 0..out.len() {
        out[k] = table[frames[from + k * stride] as usize];
    }
}

// A block of a channel: the blocks of the data are the channels' in turn. What is read and how many bytes of it a
// channel has come one by one, here and in `put_data`: a record would be made there and taken apart here.
fn put_block(
    frames: &[u8],
    table: &[u8; 256],
    channels: usize,
    bytes: usize,
    block: usize,
    out: &mut [u8],
)
    requires { Ordering LowestFirst table.now × BlockArgs channels frames.now bytes block (length out.old) }
    ensures { Written 0 (λ i. block * 4096 + i) (λ i. written_byte channels frames.now (block * 4096 + i)) 4096 out.old out.new }
{
    let first = block / channels * 4096;
    let live = (bytes - first).min(4096);
    let from = first * channels + block % channels;
    let at = block * 4096;
    gather(frames, table, from, channels, &mut out[at..at + live]);
    out[at + live..at + 4096].fill(0);
}

// The data.
pub fn put_data(frames: &[u8], channels: usize, bytes: usize, out: &mut [u8])
    requires { DataArgs channels frames.now bytes (length out.old) }
    ensures { Written 0 (λ i. i) (written_byte channels frames.now) (length out.old) out.old out.new }
{
    let table = order_table(BitOrder::LowestFirst);
    for k in 0..out.len() / 4096 {
        put_block(frames, &table, channels, bytes, k, out);
    }
}
