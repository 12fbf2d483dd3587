// Conversions beside what the original gives (data/, written by compare/answers.sh and factors.sh), labels' own filters
// (by compare/filters.py), settings changed while a converter is open (by compare/changes.py), the figures of document
// 01, and albums cut and joined.
#![tactic(auto)]

mod by_hand;
mod calls;
mod changed;
mod cuts;
mod factors;
mod figures;
mod input;
mod own_filters;
mod refused;
mod replay;
mod sounds;

use std::io;

fn main(rt: HostRuntime) -> io::Result<()> {
    factors::all(&rt)?;
    replay::all(&rt)?;
    figures::all(&rt)?;
    refused::all(&rt)?;
    own_filters::all(&rt)?;
    cuts::all(&rt)?;
    changed::all(&rt)?;
    by_hand::all(&rt)
}
