// Each line of data/conversions, converted by every call, with the counts lent and without.
use crate::calls::{Call, Made, Room, WAYS, Way};
use crate::input::{Input, of_bytes, of_samples};
use crate::{calls, input};
use reference::{Converter, Length, Run};
use std::alloc::{AllocError, Global};
use std::io;
use std::rt::Files;
use test_support::{
    Told, behind, bytes_of, clipped, float, print_right, refusal, rows_of, stored_numbers,
};

// Route, channels, decibels as bits, frames, neighbours, pattern, seed; two digests of the samples, two of the bytes,
// the clips of six channels and of two frames.
type Row = [u64; 19];

// A line, with what its calls are given, and the header that Python writes.
#[derive(Clone, Copy)]
struct Line<'a> {
    row: Row,
    header: [u8; 44],
    conv: Converter,
    run: Run<'a>,
}

impl<'a> Line<'a> {
    // One frame alone is taken by the call of a frame, two channels at most by a file.
    fn answer(self, call: Call) -> Told {
        match call {
            Call::Frame if self.row[3] != 1 => {
                refusal(4, self.run.frames.len() as u64, Length::OneFrame.number())
            }
            Call::File if self.row[1] > 2 => refusal(12, 0, 0),
            _ => Told::ACCEPTED,
        }
    }

    fn holds_samples(self, made: &Made) -> bool {
        of_samples(&made.samples) == [self.row[7], self.row[8]]
    }

    fn holds_bytes(self, bytes: &[u8], made: &Made) -> bool {
        let counts = [self.row[17], self.row[18]];
        of_bytes(bytes) == [self.row[9], self.row[10]] && counts.starts_with(&made.counts)
    }

    fn holds(self, call: Call, made: &Made) -> bool {
        match call {
            Call::Run | Call::Frame => self.holds_samples(made),
            Call::Rack | Call::Desk => self.holds_bytes(&made.bytes, made),
            Call::File => {
                made.bytes.starts_with(&self.header)
                    && self.holds_bytes(behind(&made.bytes, 44), made)
            }
        }
    }

    fn is_right(self, call: Call, made: &Made) -> bool {
        let answer = self.answer(call);
        if !answer.is_accepted() {
            return made.is_refused(answer);
        }
        let row = self.row;
        let clips = [row[11], row[12], row[13], row[14], row[15], row[16]];
        made.done.is_ok() && clipped(made.done) == clips && self.holds(call, made)
    }

    fn room(self, call: Call, counts: Option<usize>) -> Room {
        let samples = self
            .conv
            .samples_per_frame
            .saturating_mul(self.row[1] as usize)
            .saturating_mul(self.row[3] as usize);
        let header = if call == Call::File { 44 } else { 0 };
        Room {
            samples,
            bytes: samples.saturating_mul(3).saturating_add(header),
            counts,
        }
    }
}

fn way_right(alloc: Global, line: Line, way: Way) -> Result<bool, AllocError> {
    let (call, _) = way;
    let room = line.room(call, Some(line.row[3] as usize));
    let lent = calls::called(alloc, way, line.conv, line.run, room)?;
    let room = line.room(call, None);
    let unlent = calls::called(alloc, way, line.conv, line.run, room)?;
    Ok(line.is_right(call, &lent) && line.is_right(call, &unlent))
}

fn row_right(alloc: Global, headers: &[[u8; 44]], row: &Row) -> io::Result<bool> {
    let [route, channels, db, frames, neighbours, pattern, seed, ..] = *row;
    let head = [route, channels, db, frames, neighbours, pattern, seed];
    let conv = input::converter(route, channels, float(db));
    let bytes = conv.frame_length.saturating_mul(frames as usize);
    let input = Input::new(alloc, head, bytes)?;
    // Headers of three rates, one and two channels, and 0 to 3 frames.
    let place = route % 3 * 8 + (1 - channels % 2) * 4 + frames % 4;
    let line = Line {
        row: *row,
        header: headers.get(place as usize).copied().unwrap_or([0; 44]),
        conv,
        run: input.run(),
    };
    for way in WAYS {
        if !way_right(alloc, line, way)? {
            return Ok(false);
        }
    }
    Ok(true)
}

pub fn all<R: Files + Print + AllocGlobal>(rt: &R) -> io::Result<()> {
    let alloc = rt.alloc();
    let text = bytes_of(rt, "wav_headers")?;
    let headers = text.as_chunks::<44>().0;
    let rows = stored_numbers(rt, "conversions")?;
    print_right(
        rt,
        "conversions",
        rows_of::<19>(rt, "conversions", &rows)?,
        |row| { row_right(alloc, headers, row) },
    )
}
