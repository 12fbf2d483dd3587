// The channels of a batch of frames, and the batches of a run. Samples n count from the run's start.
#![tactic(auto)]

ghost use Rattle.std.specs.Prelude.{◌≡◌, ◌+◌, ◌*◌, ◌≤◌, ◌<◌, ◌%◌, length};
ghost use Rattle.numbers.specs.Lists.{tabulate};
ghost use Rattle.reference.specs.Output.{frame_clips};
ghost use Rattle.output.specs.inner.Fills.{Room};
ghost use Rattle.blocks.specs.inner.Jobs.{job_run, in_frame, in_run};
ghost use Rattle.runs.specs.inner.Loops.{Tallied, Covered, clips_below, Ran};

use blocks::Job;
use output::Place;
use reference::ConvertStats;

// Frames whose clips nobody asks for are converted so many at a time: a channel's history is made once for them.
const BATCH_FRAMES: usize = 8;

// So many frames, the first of which starts at sample n. What their samples tell is joined to the statistics; their
// clips over all channels come back.
fn batch<'a, P: Place>(
    job: &Job<'a>,
    n: usize,
    frames: usize,
    out: &mut [P],
    stats: &mut ConvertStats,
) -> u64
    requires place { (n + frames * in_frame job.now ≤ in_run job.now) × (n % 2 ≡ 0) }
    requires room { Room P.layout (in_run job.now * job.now.conv.channels) out.old }
    requires tallied { Tallied job.now.conv (job_run job.now) n stats.old.channels }
    ensures covered { Covered P.layout job.now.conv (job_run job.now) n (n + frames * in_frame job.now) out.old out.new stats.new.channels }
    ensures value { result ≡ clips_below job.now.conv (job_run job.now) n (frames * in_frame job.now) job.now.conv.channels }
{
    let mut clips = 0;
    for channel in 0..job.conv.channels as usize {
        let told = job.channel(channel, n, frames, out);
        clips += told.clipped;
        stats.channels[channel] = stats.channels[channel].join(told);
    }
    clips
}

// The run's first frames, as many as the list is long. Each is converted alone, and its clips go there.
fn counted<'a, P: Place>(job: &Job<'a>, out: &mut [P], counts: &mut [u64], stats: &mut ConvertStats)
    requires room { Room P.layout (in_run job.now * job.now.conv.channels) out.old }
    requires few { length counts.old ≤ job.now.slices.count }
    requires tallied { Tallied job.now.conv (job_run job.now) 0 stats.old.channels }
    ensures covered { Covered P.layout job.now.conv (job_run job.now) 0 (length counts.old * in_frame job.now) out.old out.new stats.new.channels }
    ensures value { counts.new ≡ tabulate (frame_clips job.now.conv (job_run job.now)) 0 (length counts.old) }
{
    let samples = job.conv.rate.samples_per_frame();
    for (f, count) in counts.iter_mut().enumerate() {
        *count = batch(job, f * samples, 1, out, stats);
    }
}

// The frames from frame `from` on, whose clips go to the statistics alone.
fn uncounted<'a, P: Place>(job: &Job<'a>, from: usize, out: &mut [P], stats: &mut ConvertStats)
    requires place { from ≤ job.now.slices.count }
    requires room { Room P.layout (in_run job.now * job.now.conv.channels) out.old }
    requires tallied { Tallied job.now.conv (job_run job.now) (from * in_frame job.now) stats.old.channels }
    ensures { Covered P.layout job.now.conv (job_run job.now) (from * in_frame job.now) (in_run job.now) out.old out.new stats.new.channels }
{
    let samples = job.conv.rate.samples_per_frame();
    let mut f = from;
    while f < job.slices.count {
        let frames = BATCH_FRAMES.min(job.slices.count - f);
        batch(job, f * samples, frames, out, stats);
        f += frames;
    }
}

// The run's frames. The counts go to their list as far as it is long.
pub fn every<'a, P: Place>(job: &Job<'a>, out: &mut [P], counts: &mut [u64]) -> ConvertStats
    requires room { Room P.layout (in_run job.now * job.now.conv.channels) out.old }
    requires few { length counts.old ≤ job.now.slices.count }
    ensures { Ran P.layout job.now.conv (job_run job.now) result out.new counts.old counts.new }
{
    let mut stats = reference::no_stats();
    counted(job, out, counts, &mut stats);
    uncounted(job, counts.len(), out, &mut stats);
    stats
}
