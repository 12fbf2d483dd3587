// The tables and the taps of a route, bound once a call and lent to the loops.
#![tactic(auto)]

ghost use Rattle.std.specs.Prelude.{◌≡◌, ◌*◌, ◌≤◌, length};
ghost use Rattle.reference.specs.Output.{samples_per_frame};
ghost use Rattle.channel_bytes.specs.inner.Runs.{slices_run};
ghost use Rattle.routes.specs.inner.Routes.{last_of, halves_of, lent_taps};
ghost use Rattle.output.specs.inner.Fills.{Room};
ghost use Rattle.runs.specs.inner.Loops.{Ran};
ghost use Rattle.workspace.specs.inner.Accepted.{Accepted};
ghost use Rattle.workspace.specs.inner.Bound.{bound};

use blocks::Job;
use channel_bytes::Slices;
use output::Place;
use reference::{ConvertStats, Converter, Cutoff, Filter, PcmRate};
use routes::Route;

mod taps;

use taps::Taps;

// Taps as they stand.
fn plain(f: &[i32]) -> Taps
    requires { length f.now ≤ 117 }
    ensures { bound result ≡ f.now }
{
    let mut values = [0; 117];
    let count = f.len();
    filters::widen_taps(f, &mut values[..count]);
    Taps { values, count }
}

// The even ones, then the odd ones.
fn halves(f: &[i32]) -> Taps
    requires { length f.now ≤ 117 }
    ensures { bound result ≡ halves_of f.now }
{
    let mut values = [0; 117];
    let count = f.len();
    let even = count.div_ceil(2);
    filters::every_second(f, 0, &mut values[..even]);
    filters::every_second(f, 1, &mut values[even..count]);
    Taps { values, count }
}

// The taps as the route's function takes them.
#[tactic(auto, unfolding(routes::specs::inner::Routes::lent_taps))]
fn lent(route: Route, f: &[i32]) -> Taps
    requires { length f.now ≤ 117 }
    ensures { bound result ≡ lent_taps route f.now }
{
    match route {
        Route::Narrow88 | Route::Wide176 => halves(f),
        Route::Narrow176 | Route::Narrow352 | Route::Wide352 => plain(f),
    }
}

// The taps of a route's last filter. Wide at 88,200 is refused before.
#[tactic(auto, using(reference::proofs::Filters::built_in_taps), unfolding(routes::specs::inner::Routes::last_taps))]
fn last_taps(conv: &Converter, route: Route) -> Taps
    ensures { bound result ≡ lent_taps route (last_of conv.now) }
{
    match (conv.cutoff, conv.rate) {
        (Cutoff::Standard, _) => lent(route, conv.filter.taps()),
        (Cutoff::Low, _) => lent(route, &tables::f30()),
        (Cutoff::Wide, PcmRate::Hz176400) => lent(route, &tables::f80()),
        (Cutoff::Wide, _) => lent(route, Filter::built_in().taps()),
    }
}

// A run of frames. The counts go to their list as far as it is long.
pub fn convert_slices<'a, P: Place>(
    conv: Converter,
    slices: Slices<'a>,
    out: &mut [P],
    counts: &mut [u64],
) -> ConvertStats
    requires accepted { Accepted conv slices.count slices.before.now slices.frames.now slices.after.now }
    requires same { slices.channels ≡ conv.channels }
    requires room { Room P.layout (slices.count * samples_per_frame conv.rate * conv.channels) out.old }
    requires few { length counts.old ≤ slices.count }
    ensures { Ran P.layout conv (slices_run slices.entry) result out.new counts.old counts.new }
{
    let route = Route::new(conv.rate, conv.cutoff);
    let bound = last_taps(&conv, route);
    let taps = bound.as_slice();
    match route {
        Route::Narrow88 | Route::Narrow176 | Route::Narrow352 => {
            let tables = tables::s1_tables();
            let job = Job {
                conv,
                slices,
                route,
                tables: &tables,
                taps,
            };
            runs::every(&job, out, counts)
        }
        Route::Wide176 | Route::Wide352 => {
            let tables = tables::s1_wide_tables();
            let job = Job {
                conv,
                slices,
                route,
                tables: &tables,
                taps,
            };
            runs::every(&job, out, counts)
        }
    }
}
