// What a conversion goes by.
ghost use Rattle.std.specs.Prelude.{◌≡◌, T};
ghost use Rattle.routes.specs.inner.Routes.{Routed, FirstTables, RouteTaps, last_of};
ghost use Rattle.routes.proofs.Props.{routed_prop, first_prop, taps_prop};
ghost use Rattle.gain.specs.Scale.{bounded};

use channel_bytes::Slices;
use reference::Converter;
use routes::Route;

// An accepted converter, the slices of its run, the converter's route, and its tables and taps.
#[derive(Clone, Copy)]
pub struct Job<'a> {
    pub conv: Converter,
    pub slices: Slices<'a>,
    pub route: Route,
    pub tables: &'a [i32],
    pub taps: &'a [i64],
    ghost same: { slices.channels ≡ conv.channels },
    ghost routed: { Routed conv route } by { routed_prop _ _ },
    ghost first: { FirstTables route tables.now } by { first_prop _ _ },
    ghost last: { RouteTaps route (last_of conv) taps.now } by { taps_prop _ _ _ },
    ghost factor: { T (bounded conv.gain.linear) },
}
