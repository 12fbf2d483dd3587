// Routes and what the stage arrays hold between two blocks: definitions and laws, and a route as a value.
#![tactic(auto)]

ghost use Rattle.std.specs.Prelude.{◌≡◌};
ghost use Rattle.routes.specs.inner.Routes.{route_of};

use reference::{Cutoff, PcmRate};

// A rate with a cutoff: Standard and Low are narrow and differ in their taps alone. Wide at 88,200 is no route.
#[derive(Clone, Copy)]
pub enum Route {
    Narrow88,
    Narrow176,
    Narrow352,
    Wide176,
    Wide352,
}

impl Route {
    // Wide at 88,200 is refused before.
    #[tactic(auto, unfolding(crate::specs::inner::Routes::route_of))]
    pub fn new(rate: PcmRate, cutoff: Cutoff) -> Route
        ensures { result ≡ route_of rate cutoff }
    {
        match (rate, cutoff) {
            (PcmRate::Hz88200, _) => Route::Narrow88,
            (PcmRate::Hz176400, Cutoff::Standard | Cutoff::Low) => Route::Narrow176,
            (PcmRate::Hz176400, Cutoff::Wide) => Route::Wide176,
            (PcmRate::Hz352800, Cutoff::Standard | Cutoff::Low) => Route::Narrow352,
            (PcmRate::Hz352800, Cutoff::Wide) => Route::Wide352,
        }
    }
}
