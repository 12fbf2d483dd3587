// Clips and levels of the frames on standard input, frame by frame. The first line says how to convert: RATE CUTOFF
// CHANNELS DB.
#![tactic(auto)]

use std::io;

fn main(rt: HostRuntime) -> io::Result<()> {
    level_stream::report(&mut rt.stdin(), &mut rt.stdin(), &mut rt.stdout())
}
