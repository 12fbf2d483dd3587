// A channel of some frames, a block of samples at a time: gathered, filtered, scaled and stored. Samples n count from
// the run's start.
#![tactic(auto)]

ghost use Rattle.std.specs.Prelude.{◌≡◌, ◌+◌, ◌*◌, ◌%◌, ◌^◌, ◌≤◌, ◌<◌, pos, length};
ghost use Rattle.numbers.specs.inner.Lists.{Held};
ghost use Rattle.reference.specs.Output.{samples_per_frame};
ghost use Rattle.routes.specs.inner.Routes.{stride, around, last_of, y_of};
ghost use Rattle.output.specs.inner.Fills.{Room};
ghost use Rattle.blocks.specs.inner.Blocks.{Made};
ghost use Rattle.blocks.specs.inner.Jobs.{job_run, job_bytes, in_frame, in_run};

use output::Place;
use reference::ChannelStats;
use stages::Buffers;

mod job;

pub use job::Job;

impl<'a> Job<'a> {
    // The bytes of a channel that `values` values of the last filter's input depend on, from position `at` on, to the
    // front of `bytes`. The bytes of the values after them start at the position that comes back.
    fn gather(&self, channel: usize, at: usize, values: usize, bytes: &mut [u8]) -> usize
        requires { (channel < self.now.conv.channels) × (at < 2 ^ 62) × (values ≤ 336) × (stride self.now.route * values + around self.now.route ≤ length bytes.old) }
        ensures value { result ≡ at + stride self.now.route * values }
        ensures held { Held 0 (job_bytes self.now channel) at (stride self.now.route * values + around self.now.route) bytes.new }
    {
        let step = kernel::stride(self.route) * values;
        let n = step + kernel::around(self.route);
        self.slices.gather(channel, at, &mut bytes[..n]);
        at + step
    }

    // A block of the last filter's values, scaled and stored as samples n, n + 1, .. of a channel.
    fn write<P: Place>(
        &self,
        channel: usize,
        n: usize,
        y: &[i64],
        samples: &mut [i32],
        out: &mut [P],
    ) -> ChannelStats
        requires place { (channel < self.now.conv.channels) × (n + length y.now ≤ in_run self.now) }
        requires room { Room P.layout (in_run self.now * self.now.conv.channels) out.old × (0 < length y.now) × (length samples.old ≡ length y.now) }
        requires held { Held (pos 0) (y_of self.now.route (last_of self.now.conv) (job_bytes self.now channel)) (in_frame self.now + n) (length y.now) y.now }
        ensures { Made P.layout self.now.conv (job_run self.now) channel n (length y.now) result out.old out.new }
    {
        let told = gain::scale_block(y, self.conv.gain.linear, samples);
        output::store(samples, n, self.conv.channels as usize, channel, out);
        told
    }

    // A channel of so many frames, the first of which starts at sample n. The history is made once for them all. The
    // arrays are of fixed length, and filled a block at a time: nothing here is on the heap.
    pub fn channel<P: Place>(
        &self,
        channel: usize,
        n: usize,
        frames: usize,
        out: &mut [P],
    ) -> ChannelStats
        requires place { (channel < self.now.conv.channels) × (n + frames * in_frame self.now ≤ in_run self.now) × (n % 2 ≡ 0) }
        requires room { Room P.layout (in_run self.now * self.now.conv.channels) out.old }
        ensures { Made P.layout self.now.conv (job_run self.now) channel n (frames * in_frame self.now) result out.old out.new }
    {
        let route = self.route;
        let spf = self.conv.rate.samples_per_frame();
        let m = kernel::block_length(route);
        let last = self.taps.len() - 1;
        let mut bytes = [0; 512];
        let mut buffers = Buffers::new();
        let mut y = [0; 336];
        let mut samples = [0; 336];
        let mut at = kernel::start(route, last, spf + n);
        at = self.gather(channel, at, 2 * last, &mut bytes);
        kernel::history(route, self.tables, &bytes, 2 * last, &mut buffers);
        let mut told = ChannelStats::none();
        for b in 0..frames * (spf / m) {
            let first = b == 0;
            let new = kernel::fresh(route, first);
            at = self.gather(channel, at, new, &mut bytes);
            kernel::block(
                route,
                self.tables,
                self.taps,
                &bytes,
                first,
                &mut buffers,
                &mut y,
            );
            let more = self.write(channel, n + b * m, &y[..m], &mut samples[..m], out);
            told = told.join(more);
        }
        told
    }
}
