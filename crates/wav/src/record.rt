// The call over the run record.
ghost use Rattle.std.specs.Prelude.{is_some};
ghost use Rattle.reference.specs.Frames.{run_of};
ghost use Rattle.run_record.specs.Calls.{listed, left};
ghost use Rattle.wav.specs.Promises.{WavPromise};

use crate::{counted, uncounted};
use reference::{ConvertStats, Converter, PcmError, Run};

// A file from a run.
pub fn convert<'a>(
    conv: Converter,
    run: Run<'a>,
    out: &mut [u8],
    counts: Option<&mut [u64]>,
) -> Result<ConvertStats, PcmError>
    ensures { WavPromise conv (run_of run.entry) (is_some counts.entry) out.old (listed counts.entry) out.new (left counts.exit) result }
{
    match counts {
        Some(counts) => counted(conv, run, out, counts),
        None => uncounted(conv, run, out),
    }
}
