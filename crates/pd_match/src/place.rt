//! Where an event stands.
ghost use Rattle.pd_match.specs.Noted.{event_place};
ghost use Rattle.pd_match.specs.Views.{place_view};
ghost use Rattle.std.specs.Prelude.{◌≡◌, ◌<◌, ◌^◌};

/// Where an event stands. Places are ordered by process, then by number.
#[derive(Clone, Copy, Debug, PartialEq, Eq)]
pub struct Place {
    /// The process, counted from 0.
    pub process: usize,
    /// The number of the event among those of its process, counted from 1.
    pub number: u64,
}

impl Place {
    /// The place of the event at this index among those of its process.
    pub(crate) fn of_event(process: usize, index: usize) -> Place
        requires { index < 2 ^ 63 }
        ensures { place_view result ≡ event_place process index }
    {
        Place {
            process,
            number: index as u64 + 1,
        }
    }
}
