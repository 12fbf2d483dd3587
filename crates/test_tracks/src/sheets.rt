// Statistics printed as a sheet, or refused; two statistics joined.
use std::io;
use std::rt::Files;
use test_support::{
    answered, behind, bytes_of, print_right, refusal, rows_of, stats_are, stats_of_row,
    stored_numbers, up_to,
};

// Channels, the output's length, the statistics, the answer, and where the sheet stands, with its length. Nothing is
// written past it.
fn sheet_right(row: &[u64; 31], sheets: &[u8]) -> bool {
    let Some(stats) = row[2..].first_chunk::<24>() else {
        return false;
    };
    let mut out = [7u8; 400];
    let length = 400.min(row[1] as usize);
    let channels = (row[0] % 256) as u8;
    let answer = sheet::level_sheet(channels, stats_of_row(stats), &mut out[..length]);
    answered(answer) == refusal(row[26], row[27], row[28])
        && out.starts_with(up_to(behind(sheets, row[29]), row[30]))
        && behind(&out, row[30]).iter().all(|b| *b == 7)
}

// Two statistics, and those of both.
fn join_right(row: &[u64; 72]) -> bool {
    match row.as_chunks::<24>().0 {
        [a, b, both] => {
            let joined = stretches::join_stats(stats_of_row(a), stats_of_row(b));
            stats_are(joined, both)
        }
        _ => false,
    }
}

pub fn all<R: Files + Print + AllocGlobal>(rt: &R) -> io::Result<()> {
    let sheets = bytes_of(rt, "sheets")?;
    let rows = stored_numbers(rt, "statistics")?;
    print_right(
        rt,
        "sheets",
        rows_of::<31>(rt, "statistics", &rows)?,
        |row| { Ok(sheet_right(row, &sheets)) },
    )?;
    let rows = stored_numbers(rt, "joins")?;
    print_right(
        rt,
        "joined statistics",
        rows_of::<72>(rt, "joins", &rows)?,
        |row| { Ok(join_right(row)) },
    )
}
