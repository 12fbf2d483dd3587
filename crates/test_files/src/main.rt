// DSF files and uploads beside the answers of compare/files, WAV files beside what Python's `wave` writes
// (data/wav_headers, made by compare/wav/headers.py); an album that goes through a DSF file; stored files that are not
// whole.
#![tactic(auto)]

mod damaged;
mod reading;
mod said;
mod through;
mod uploads;
mod wav_files;
mod writing;

use std::io;

fn main(rt: HostRuntime) -> io::Result<()> {
    said::all(&rt)?;
    reading::files(&rt)?;
    reading::parts(&rt)?;
    writing::all(&rt)?;
    uploads::all(&rt)?;
    wav_files::all(&rt)?;
    damaged::all(&rt)?;
    through::all(&rt)
}
