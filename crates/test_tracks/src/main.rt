// Albums of tracks beside the answers of compare/tracks.py, albums of one file beside those of compare/albums.py, and
// sheets and joined statistics beside those of compare/sheets.py.
#![tactic(auto)]

mod case;
mod plan;
mod sheets;
mod singles;
mod steps;

use case::{Case, Files, Row, Tables};
use std::io;
use std::rt::Files as HasFiles;
use test_support::{bytes_of, print_right, rows_of};

// An album's numbers, headers, plan and samples; of a refused one the answer alone.
fn case_right(alloc: std::alloc::Global, row: &Row, tables: Tables<'_>) -> io::Result<bool> {
    let case = Case { row, tables };
    let files = Files::of(alloc, case)?;
    let asked = files.asked();
    if !plan::opens(alloc, case, asked)? {
        return Ok(false);
    }
    Ok(
        case.answer() != 0
            || (plan::headed(case)
                && plan::planned(alloc, case, asked)?
                && steps::all(alloc, case, asked)?),
    )
}

fn main(rt: HostRuntime) -> io::Result<()> {
    let alloc = rt.alloc();
    let bytes = bytes_of(&rt, "bytes")?;
    let albums = test_support::stored_numbers(&rt, "albums")?;
    let tracks = test_support::stored_numbers(&rt, "tracks")?;
    let steps = test_support::stored_numbers(&rt, "steps")?;
    let parts = test_support::stored_numbers(&rt, "parts")?;
    let tables = Tables {
        tracks: rows_of::<6>(&rt, "tracks", &tracks)?,
        steps: rows_of::<7>(&rt, "steps", &steps)?,
        parts: rows_of::<5>(&rt, "parts", &parts)?,
        bytes: &bytes,
    };
    print_right(
        &rt,
        "albums of tracks",
        rows_of::<45>(&rt, "albums", &albums)?,
        |row| case_right(alloc, row, tables),
    )?;
    singles::all(&rt)?;
    sheets::all(&rt)
}
