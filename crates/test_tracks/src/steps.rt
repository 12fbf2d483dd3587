// Steps: what they write, and where that goes. The samples are not there of an album whose numbers alone are compared.
use crate::case::Case;
use c_tracks::Asked;
use reference::ConvertStats;
use std::alloc::{AllocError, Global};
use test_support::{behind, stats_are, stats_of_row, up_to};

// What a step reads, end to end.
fn windows(alloc: Global, case: Case<'_>, step: &[u64; 7]) -> Result<Vec<u8>, AllocError> {
    let mut all = Vec::new(alloc);
    for (line, part) in case.tracks().iter().zip(case.parts(step)) {
        let data = behind(case.file(line), 92);
        all.extend_from_slice(up_to(behind(data, part[0]), part[1]))?;
    }
    Ok(all)
}

// Whether a step's bytes go where the case says.
fn written(alloc: Global, case: Case<'_>, step: &[u64; 7]) -> Result<bool, AllocError> {
    let mut marks = Vec::new(alloc);
    for line in case.lines() {
        marks.push(line[3])?;
    }
    let mut writes = vec![in alloc; 7u64; case.tracks().len().saturating_mul(3)]?;
    c_tracks::writes(&marks, step[2], step[3], &mut writes);
    Ok(
        writes
            .as_chunks::<3>()
            .0
            .iter()
            .zip(case.parts(step))
            .all(|(write, part)| write[..] == part[2..]),
    )
}

// Whether a step's frames, gathered alone, are these.
fn gathered(
    alloc: Global,
    asked: Asked<'_>,
    step: &[u64; 7],
    windows: &[u8],
    frames: &[u8],
) -> Result<bool, AllocError> {
    let mut scratch = vec![in alloc; 0u8; frames.len()]?;
    let answer = c_tracks::frames(
        asked,
        step[0],
        step[1],
        windows,
        &mut scratch,
        &mut [0; 2],
        &mut [0.0],
    );
    Ok(answer == 0 && &scratch[..] == frames)
}

// A step's statistics, where its bytes are the album's.
fn converted(
    alloc: Global,
    case: Case<'_>,
    asked: Asked<'_>,
    step: &[u64; 7],
) -> Result<Option<ConvertStats>, AllocError> {
    let windows = windows(alloc, case, step)?;
    let mut scratch = vec![in alloc; 0u8; step[4] as usize]?;
    let mut out = vec![in alloc; 0u8; step[3] as usize]?;
    let mut stats = [0; 24];
    let answer = c_tracks::step(
        asked,
        step[0],
        step[1],
        &windows,
        &mut scratch,
        &mut out,
        &mut stats,
        &mut [0; 2],
        &mut [0.0],
    );
    let right = answer == 0 && &out[..] == up_to(behind(case.data(), step[2]), step[3]);
    let right = gathered(alloc, asked, step, &windows, &scratch)? && right;
    Ok(right.then_some(stats_of_row(&stats)))
}

// Whether the joined statistics of some steps, which are the whole album, are the case's.
fn over(
    alloc: Global,
    case: Case<'_>,
    asked: Asked<'_>,
    steps: &[[u64; 7]],
) -> Result<bool, AllocError> {
    let mut joined = reference::no_stats();
    for step in steps {
        let Some(stats) = converted(alloc, case, asked, step)? else {
            return Ok(false);
        };
        joined = stretches::join_stats(joined, stats);
    }
    Ok(case.stats().is_some_and(|row| stats_are(joined, row)))
}

// All steps of a case: frame by frame, and all as one.
pub fn all(alloc: Global, case: Case<'_>, asked: Asked<'_>) -> Result<bool, AllocError> {
    let steps = case.steps();
    for step in steps {
        if !written(alloc, case, step)? {
            return Ok(false);
        }
    }
    if case.data().is_empty() {
        return Ok(true);
    }
    let (frames, whole) = steps.split_at(steps.len().saturating_sub(1));
    Ok(over(alloc, case, asked, frames)? && over(alloc, case, asked, whole)?)
}
