// Modules 4 and 5: from a block of a channel's bytes to y, by the route.
#![tactic(auto)]

ghost use Rattle.std.specs.Prelude.{◌≡◌, ℕ, ◌+◌, ◌*◌, ◌%◌, ◌≤◌, ◌<◌, List, true, false, ℤ, pos, length};
ghost use Rattle.numbers.specs.inner.Lists.{Held};
ghost use Rattle.routes.specs.inner.Routes as Routes;
ghost use Rattle.routes.specs.inner.Routes.{SomeTaps, RouteTaps, FirstTables, State, Brought, y_of, filter_input, block_length, first_byte, history_from};

use routes::Route;
use stages::Buffers;

// Samples of a block.
#[tactic(auto, unfolding(routes::specs::inner::Routes::block_length))]
pub fn block_length(route: Route) -> usize
    ensures { (result ≡ block_length route) × (0 < result) × (result ≤ 336) }
{
    match route {
        Route::Narrow88 | Route::Wide176 => 84,
        Route::Narrow176 => 168,
        Route::Narrow352 | Route::Wide352 => 336,
    }
}

// Values of x that a block brings. At 352,800 a batch's first block of Standard or Low brings also the 16 of w before
// it. `first` is a fact of the block and picks a number, no step: there is nothing beside it that an enum would hold.
#[tactic(auto, unfolding(routes::specs::inner::Routes::fresh))]
pub fn fresh(route: Route, first: bool) -> usize
    ensures { (result ≡ Routes.fresh route first) × (result ≤ 336) }
{
    match route {
        Route::Narrow88 | Route::Narrow176 | Route::Wide176 => 168,
        Route::Narrow352 => {
            if first {
                return 184;
            }
            168
        }
        Route::Wide352 => 336,
    }
}

// Bytes from one value of x to the next, and bytes around a value beside its own.
#[tactic(auto, unfolding(routes::specs::inner::Routes::stride))]
pub fn stride(route: Route) -> usize
    ensures { (result ≡ Routes.stride route) × (result ≤ 2) }
{
    match route {
        Route::Narrow88 | Route::Narrow176 | Route::Narrow352 => 2,
        Route::Wide176 | Route::Wide352 => 1,
    }
}

#[tactic(auto, unfolding(routes::specs::inner::Routes::around))]
pub fn around(route: Route) -> usize
    ensures { (result ≡ Routes.around route) × (result ≤ 36) }
{
    match route {
        Route::Narrow88 | Route::Narrow176 | Route::Narrow352 => 36,
        Route::Wide176 | Route::Wide352 => 11,
    }
}

// The first byte that the history of a batch depends on: as many before the byte of its first sample n as
// document 01's reach. The last filter has taps up to place m.
#[tactic(auto, unfolding(routes::specs::inner::Routes::first_byte, routes::specs::inner::Routes::history_from))]
pub fn start(route: Route, m: usize, n: usize) -> usize
    requires { (m ≤ 116) × (1000 ≤ n) × (n < 1000000000000) × (n % 2 ≡ 0) }
    ensures { (result ≡ first_byte route (history_from route m true n)) × (result ≤ 4 * n) }
{
    match route {
        Route::Narrow88 => 4 * n - (2 * m + 19),
        Route::Narrow176 => 2 * n - (2 * m + 19),
        Route::Narrow352 => n - (2 * m + 35),
        Route::Wide176 => 2 * n - (m + 6),
        Route::Wide352 => n - (m + 6),
    }
}

// The history of x: n values from the front of `bytes`. In line in both forms of an output, as `block` is: its lengths
// are then known numbers to the compiler. Called from both, six routes took 1.14 to 1.19 times as long.
#[inline(always)]
pub fn history(route: Route, tables: &[i32], bytes: &[u8], n: usize, buffers: &mut Buffers)
    requires first_tables { FirstTables route tables.now }
    requires n_bound { (n ≤ 232) × (length bytes.now ≡ 512) }
    ensures kept { buffers.new.kept ≡ buffers.old.kept }
    ensures held { (β : ℕ → ℕ) (i : ℕ) → 10 ≤ i → Held 0 β (first_byte route i) (Routes.stride route * n + Routes.around route) bytes.now → Held (pos 0) (filter_input route β) i n buffers.new.x }
{
    match route {
        Route::Narrow88 | Route::Narrow176 | Route::Narrow352 => {
            buffers.bring_v(tables, &bytes[..2 * n + 36], 0, n);
        }
        Route::Wide176 | Route::Wide352 => buffers.bring_u(tables, &bytes[..n + 11], 0, n),
    }
}

// A block of y, at its front, from the front of `bytes`; the arrays go on to the next block.
#[inline(always)]
pub fn block(
    route: Route,
    tables: &[i32],
    h: &[i64],
    bytes: &[u8],
    first: bool,
    buffers: &mut Buffers,
    y: &mut [i64],
)
    requires first_tables { FirstTables route tables.now }
    requires some_taps { SomeTaps route h.now }
    requires lengths { (length bytes.now ≡ 512) × (length y.old ≡ 336) }
    ensures { (F : List ℤ) (β : ℕ → ℕ) (n : ℕ) → RouteTaps route F h.now → 1000 ≤ n → Brought route F first β n bytes.now
        → State route F first β n buffers.old.x buffers.old.kept → Held (pos 0) (y_of route F β) n (block_length route) y.new
        × State route F false β (n + block_length route) buffers.new.x buffers.new.kept }
{
    match route {
        Route::Narrow88 => narrow::narrow88(tables, h, &bytes[0..372], buffers, &mut y[0..84]),
        Route::Narrow176 => narrow::narrow176(tables, h, &bytes[0..372], buffers, &mut y[0..168]),
        Route::Narrow352 => {
            let k = fresh(route, first);
            let b = 2 * k + 36;
            narrow::narrow352(tables, h, &bytes[0..b], k, buffers, y);
        }
        Route::Wide176 => wide::wide176(tables, h, &bytes[0..179], buffers, &mut y[0..84]),
        Route::Wide352 => wide::wide352(tables, h, &bytes[0..347], buffers, y),
    }
}
