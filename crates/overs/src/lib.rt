// Overs by the studio rule, sample by sample: three in a row at one end of full scale, counted at the third.
#![tactic(auto)]

ghost use Rattle.std.specs.Prelude.{◌≡◌};
ghost use Rattle.overs.specs.Overs as overs;

// An end of full scale.
#[derive(Clone, Copy, PartialEq, Eq)]
pub enum End {
    High,
    Low,
}

// Samples in a row at an end, just before a place of a channel: how many, held at 3.
#[derive(Clone, Copy)]
pub struct Standing {
    pub end: End,
    pub length: u64,
}

// What is in progress at a place of a channel: nothing where the sample before it stands at no end, as at the start.
pub type Progress = Option<Standing>;

// Overs of a stretch, and what is in progress after it.
#[derive(Clone, Copy)]
pub struct OverCount {
    pub count: u64,
    pub next: Progress,
}

// The end that a sample stands at.
#[tactic(auto, unfolding(crate::specs::Overs::end_of, crate::specs::Overs::stands_at))]
pub fn end_of(s: i32) -> Option<End>
    ensures { result ≡ overs.end_of s }
{
    match s {
        8388607 => Some(End::High),
        -8388608 => Some(End::Low),
        _ => None,
    }
}

// How many samples in progress stand at this end.
#[tactic(auto, unfolding(crate::specs::Overs::length_at, crate::specs::Overs::same_end))]
fn length_at(p: Progress, end: End) -> u64
    ensures { result ≡ overs.length_at p end }
{
    match p {
        Some(before) if before.end == end => before.length,
        _ => 0,
    }
}

// A length over 3 counts as 3, and 0 as nothing in progress.
#[tactic(auto, unfolding(crate::specs::Overs::normal))]
pub fn normal(p: Progress) -> Progress
    ensures { result ≡ overs.normal p }
{
    let Some(before) = p else { return None };
    if before.length == 0 {
        return None;
    }
    Some(Standing {
        end: before.end,
        length: before.length.min(3),
    })
}

// One sample more.
#[tactic(auto, unfolding(crate::specs::Overs::step, crate::specs::Overs::step_at, crate::specs::Overs::third_after, crate::specs::Overs::longer))]
pub fn step(p: Progress, s: i32) -> OverCount
    ensures { result ≡ overs.step p s }
{
    let Some(end) = end_of(s) else {
        return OverCount {
            count: 0,
            next: None,
        };
    };
    let length = length_at(p, end);
    OverCount {
        count: u64::from(length == 2),
        next: Some(Standing {
            end,
            length: length.min(2) + 1,
        }),
    }
}
