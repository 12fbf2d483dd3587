// The conversions once their calls are accepted.
ghost use Rattle.std.specs.Prelude.{◌≡◌, ◌≤◌, length};
ghost use Rattle.numbers.specs.Lists.{tabulate};
ghost use Rattle.reference.specs.Frames.{run_of, frame_count};
ghost use Rattle.reference.specs.Output.{all_samples, samples, stats, frame_clips};
ghost use Rattle.output.specs.inner.Fills.{Room, parts_of};
ghost use Rattle.run_record.specs.inner.Calls.{AcceptedCall};

use channel_bytes::Slices;
use output::Place;
use reference::{ConvertStats, Converter, Run};

// A run in the form of the output, with the counts of its frames as far as their list is long.
pub fn converted<'a, P: Place>(
    conv: Converter,
    run: Run<'a>,
    out: &mut [P],
    counts: &mut [u64],
) -> ConvertStats
    requires accepted_call { AcceptedCall conv (run_of run) }
    requires room { Room P.layout (all_samples conv (run_of run)) out.old }
    requires few { length counts.old ≤ frame_count conv.channels run.frames.now }
    ensures out_after { out.new ≡ parts_of P.layout (samples conv (run_of run.entry)) }
    ensures counts_after { counts.new ≡ tabulate (frame_clips conv (run_of run.entry)) 0 (length counts.old) }
    ensures value { result ≡ stats conv (run_of run.entry) }
{
    let slices = Slices {
        before: run.has_before.then_some(run.before).unwrap_or(&[]),
        frames: run.frames,
        after: run.has_after.then_some(run.after).unwrap_or(&[]),
        channels: conv.channels as usize,
        count: run.frames.len() / conv.frame_length,
    };
    workspace::convert_slices(conv, slices, out, counts)
}
