// Overs of a channel in interleaved items.
#![tactic(auto)]

ghost use Rattle.std.specs.Prelude.{◌≡◌, ◌+◌, ◌*◌, ◌≤◌, pos, length, get_or};
ghost use Rattle.overs.specs.Overs as overs;
ghost use Rattle.channel_overs.specs.inner.Passed.{Passed};

use overs::{OverCount, Progress, end_of, normal, step};

// How many of `length` interleaved items are channel c's, of n channels: places c, c + n, .. below the length.
#[tactic(auto, using(crate::proofs::Passed::small_quotient), unfolding(overs::specs::Overs::channel_size))]
fn channel_size(length: usize, n: usize, c: usize) -> usize
    ensures { result ≡ overs.channel_size length n c }
{
    if n <= c || length <= c {
        return 0;
    }
    (length - 1 - c) / n + 1
}

// Passes over samples from place k on, three at a time, while nothing is in progress and the third is at no end: none
// of them is the third of an over, and nothing is in progress after them. The answer is the place after them.
fn passed_over(items: &[i32], n: usize, c: usize, m: usize, k: usize, p: Progress) -> usize
    requires { (m ≡ overs.channel_size (length items.now) n c) × (k ≤ m) }
    ensures { (result ≤ m) × Passed (λ j. get_or items.now (j * n + c) (pos 0)) p k result }
{
    let mut at = k;
    if p.is_some() {
        return at;
    }
    // Not a `for`: it stops at the first third that is at an end.
    while 3 <= m - at && end_of(items[(at + 2) * n + c]).is_none() {
        at += 3;
    }
    at
}

// Overs of channel c of n in interleaved items, from what is in progress before them.
pub fn overs(items: &[i32], n: usize, c: usize, p: Progress) -> OverCount
    ensures { result ≡ overs.overs_of items.now n c p }
{
    let m = channel_size(items.len(), n, c);
    let mut state = normal(p);
    let mut count = 0u64;
    let mut k = 0usize;
    // Not a `for`: a turn may pass over many samples.
    while k < m {
        let past = passed_over(items, n, c, m, k, state);
        if k < past {
            state = None;
            k = past;
        } else {
            let counted = step(state, items[k * n + c]);
            count += counted.count;
            state = counted.next;
            k += 1;
        }
    }
    OverCount { count, next: state }
}
