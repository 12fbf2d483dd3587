// What opens, the headers of WAV files, and the plan's last piece.
use crate::case::Case;
use c_tracks::Asked;
use std::alloc::{AllocError, Global};
use test_support::rate_of_hertz;
use wave_headers::Format;

// The marks of all lines.
fn marks_of(alloc: Global, case: Case<'_>) -> Result<Vec<u64>, AllocError> {
    let mut marks = Vec::new(alloc);
    for line in case.lines() {
        marks.push(line[3])?;
    }
    Ok(marks)
}

// Whether the answer, the track, the album's numbers and where its tracks' samples begin are the case's.
pub fn opens(alloc: Global, case: Case<'_>, asked: Asked<'_>) -> Result<bool, AllocError> {
    let mut album = [0; 8];
    let mut marks = vec![in alloc; 0u64; case.lines().len()]?;
    let mut track = [0];
    let answer = c_tracks::open(
        asked,
        &mut album,
        &mut marks,
        &mut track,
        &mut [0; 2],
        &mut [0.0],
    );
    Ok(
        u64::from(answer) == case.answer()
            && track[0] == case.row[10]
            && &album[..] == case.numbers()
            && marks == marks_of(alloc, case)?,
    )
}

// Whether n bytes of samples have this header; none where it is empty.
fn header_right(case: Case<'_>, n: u64, header: &[u8]) -> bool {
    let format = match case.row[4] {
        0 => Format::Auto,
        1 => Format::Wav,
        _ => Format::Rf64,
    };
    let mut out = [7; 104];
    let length = wave_headers::header(
        format,
        rate_of_hertz(case.row[0]),
        case.row[11],
        case.row[12],
        n,
        &mut out,
    )
    .unwrap_or(0);
    length == header.len() as u64
        && out.starts_with(header)
        && out[header.len().min(104)..].iter().all(|b| *b == 7)
}

// Those of the tracks, and of all in one file.
pub fn headed(case: Case<'_>) -> bool {
    let lines = case.lines();
    let mut right = true;
    for (line, next) in lines.iter().zip(lines.iter().skip(1)) {
        right = right && header_right(case, next[3].saturating_sub(line[3]), case.header(line));
    }
    match lines.last() {
        Some(whole) => right && header_right(case, case.row[15], case.header(whole)),
        None => false,
    }
}

// Whether the plan's last piece is the last step, with what is read for it, and none comes after it.
pub fn planned(alloc: Global, case: Case<'_>, asked: Asked<'_>) -> Result<bool, AllocError> {
    let pieces = case.row[18];
    let mut plan = [7; 6];
    let mut reads = vec![in alloc; 7u64; case.tracks().len().saturating_mul(2)]?;
    let answer = c_tracks::piece(asked, pieces, &mut plan, &mut reads);
    if answer != 0 || plan != [0; 6] || reads.iter().any(|n| *n != 0) {
        return Ok(false);
    }
    let Some(step) = case.steps().last() else {
        return Ok(pieces == 0);
    };
    let answer = c_tracks::piece(asked, pieces.saturating_sub(1), &mut plan, &mut reads);
    let right = reads
        .as_chunks::<2>()
        .0
        .iter()
        .zip(case.parts(step))
        .all(|(read, part)| read[..] == part[..2]);
    Ok(answer == 0 && plan[..] == step[..6] && right)
}
