// The level report of each input in data/, one after the other, and then the boards. Inputs and stored reports are made
// by compare/reports.sh from the original. From input 67 on the samples at full scale are chosen (frames of 1,176
// samples but for 82 and 83), and overs are shown:
// 67 to 70  runs of 2, 3, 4 and 1,000 samples: none, then one each
// 71 to 73  a run over a border, its third sample last in frame 0, first and second in frame 1
// 74, 75    a run of three that ends at a border; a run of two over a border, which is none
// 76, 77    a run over two borders, its third sample in frame 0, and first in frame 1
// 78 to 80  high, then low at once: two and two are none, three and three are two, at a border one in each frame
// 81        0x00 at 0 dB: an over in frame 1, which has no clip
// 82, 83    a run over a border at 176,400 and at 352,800 Hz
// 84        two channels, each with its own run over the border
#![tactic(auto)]

mod stored_boards;

use std::fs::File;
use std::io;

fn report_of(rt: &HostRuntime, k: u64) -> io::Result<()> {
    let path = format!(in rt.alloc(); "{k:02}")?;
    let from = File::open(rt, path.as_str())?;
    level_stream::report(&mut &from, &mut &from, &mut io::writer(rt))
}

fn main(rt: HostRuntime) -> io::Result<()> {
    for k in 1..85 {
        println!(rt; "input {k}")?;
        report_of(&rt, k)?;
    }
    println!(rt; "inputs 84")?;
    stored_boards::all(&rt)
}
