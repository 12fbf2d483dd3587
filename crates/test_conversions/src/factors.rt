// The gain and the scaling beside what the original gives (data/, written by compare/factors.sh) and the figures of
// document 01.
ghost use Rattle.std.specs.Prelude.{◌<◌, nat_abs};

use crate::input::biased;
use reference::PcmError;
use std::io;
use std::rt::Files;
use test_support::{bits, float, print_right, rows_of, stored_numbers};

// Decibels and their factor, by their bits.
fn is_factor(&[db, factor]: &[u64; 2]) -> bool {
    bits(gain::db_to_linear(float(db))) == factor
}

const HIGHEST: u64 = 0x4038_0000_0000_0000;

const LOWEST: u64 = 0xc05e_0000_0000_0000;

const MINUS_ZERO: u64 = 0x8000_0000_0000_0000;

const ABOVE_HIGHEST: u64 = 0x4038_0000_0000_0001;

const NAN: u64 = 0x7ff8_0000_0000_0000;

// Decibels, a factor, and the factor that the gain call makes, or 0 where it refuses. 24, -120 and -0 are taken; the
// next float above 24, the next below -120, NaN and the infinities are not. Then factors that are a bit up, a bit down,
// NaN, and -0; and decibels past the end. The factors are the original's, 1 at -0.
const EDGES: [[u64; 3]; 13] = [
    [HIGHEST, 0x402f_b2a7_3489_7856, 0x402f_b2a7_3489_7856],
    [LOWEST, 0x3eb0_c6f7_a0b5_ed86, 0x3eb0_c6f7_a0b5_ed86],
    [MINUS_ZERO, 0x3ff0_0000_0000_0000, 0x3ff0_0000_0000_0000],
    [ABOVE_HIGHEST, 0, 0],
    [0xc05e_0000_0000_0001, 0, 0],
    [NAN, 0, 0],
    [0x7ff0_0000_0000_0000, 0, 0],
    [0xfff0_0000_0000_0000, 0, 0],
    [HIGHEST, 0x402f_b2a7_3489_7857, 0x402f_b2a7_3489_7856],
    [LOWEST, 0x3eb0_c6f7_a0b5_ed85, 0x3eb0_c6f7_a0b5_ed86],
    [HIGHEST, NAN, 0x402f_b2a7_3489_7856],
    [HIGHEST, MINUS_ZERO, 0x402f_b2a7_3489_7856],
    [ABOVE_HIGHEST, 0x402f_b2a7_3489_7856, 0],
];

// What the gain call makes of the decibels, or that it refuses them and hands them back; and whether the record of the
// pair is taken for right.
fn edge_right(&[db, factor, made]: &[u64; 3]) -> bool {
    let called = match gain::from_db(float(db)) {
        Ok(g) => bits(g.db) == db && bits(g.linear) == made,
        Err(PcmError::Gain(d)) => bits(d) == db && made == 0,
        Err(_) => false,
    };
    called && gain::right_gain(test_support::gain(db, factor)) == (made != 0 && factor == made)
}

// What `biased` has made positive, above -2^31.
fn lowered(n: u64) -> i64
    ensures { nat_abs result < 2147483648 }
{
    let low = (n % 0x1_0000_0000).max(1);
    low as i64 - 0x8000_0000
}

// A number, decibels as bits, the sample by `quantise`, how many it counted as clipped. Number and sample have 2^31
// added.
fn scales(&[y, db, sample, clips]: &[u64; 4]) -> bool {
    match gain::from_db(float(db)) {
        Ok(g) => {
            let ys = [lowered(y)];
            let mut out = [0i32; 1];
            let t = gain::scale_block(&ys, g.linear, &mut out);
            biased(out[0]) == sample && t.clipped == clips
        }
        Err(_) => false,
    }
}

// Document 01's figures: y is 2^26 where all bits are 1, and minus that where all are 0. The last is 8,388,607.25
// before the rounding.
fn figures() -> [[u64; 4]; 6] {
    let high = biased(67108864);
    let low = biased(-67108864);
    let top = biased(8388607);
    let bottom = biased(-8388608);
    [
        [high, 0, top, 1],
        [high, 0xc034_0000_0000_0000, biased(838861), 0],
        [high, LOWEST, biased(8), 0],
        [low, 0, bottom, 0],
        [low, HIGHEST, bottom, 1],
        [biased(67108858), 0, top, 0],
    ]
}

pub fn all<R: Files + Print + AllocGlobal>(rt: &R) -> io::Result<()> {
    let rows = stored_numbers(rt, "factors")?;
    print_right(
        rt,
        "factors",
        rows_of::<2>(rt, "factors", &rows)?,
        |row| Ok(is_factor(row)),
    )?;
    let rows = stored_numbers(rt, "scalings")?;
    print_right(
        rt,
        "scalings",
        rows_of::<4>(rt, "scalings", &rows)?,
        |row| Ok(scales(row)),
    )?;
    print_right(rt, "edges of the gain", &EDGES, |row| Ok(edge_right(row)))?;
    print_right(rt, "figures", &figures(), |row| Ok(scales(row)))
}
