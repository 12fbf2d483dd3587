// Where a piece's bytes go: which of them are which track's, and where in its file.
ghost use Rattle.std.specs.Prelude.{◌≡◌, ◌-◌, ◌*◌, length};
ghost use Rattle.tracks_plan.specs.Writes as parts;

// Of a piece's bytes those from `begin` on to `end`, which stand from `at` on in a file's data.
#[derive(Clone, Copy)]
pub struct Write {
    pub begin: u64,
    pub end: u64,
    pub at: u64,
}

// Of bytes that stand from `place` on in the album's data, those of the file that has the data from `low` on to `high`.
#[tactic(auto, unfolding(crate::specs::Writes::write_of))]
pub fn write_of(place: u64, bytes: u64, low: u64, high: u64) -> Write
    ensures { result ≡ parts.write_of place bytes low high }
{
    let begin = low.saturating_sub(place);
    let end = bytes.min(high.saturating_sub(place));
    if begin < end {
        let at = place.saturating_sub(low);
        return Write { begin, end, at };
    }
    Write {
        begin: 0,
        end: 0,
        at: 0,
    }
}

fn put(write: Write, out: &mut [u64])
    requires { length out.old ≡ 3 }
    ensures { out.new ≡ parts.write_numbers write }
{
    out[0] = write.begin;
    out[1] = write.end;
    out[2] = write.at;
}

// Three numbers for each file: file k has the data from mark k on to the next.
pub fn writes(marks: &[u64], place: u64, bytes: u64, out: &mut [u64])
    requires { length out.old ≡ 3 * (length marks.now - 1) }
    ensures { out.new ≡ parts.writes marks.now place bytes }
{
    let files = marks.len().saturating_sub(1);
    for k in 0..files {
        let write = write_of(place, bytes, marks[k], marks[k + 1]);
        put(write, &mut out[3 * k..3 * k + 3]);
    }
}
