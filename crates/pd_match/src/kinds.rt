//! The kinds of events, by process and index.
ghost use Rattle.read_traces.specs.Columns.{seen_kind_view};
ghost use Rattle.read_traces.specs.Views.{computation_view};
ghost use Rattle.pd_match.specs.Noted.{event_place};
ghost use Rattle.def_model.specs.Events.{event_count, kind_at};
ghost use Rattle.std.specs.Prelude.{◌≡◌, ◌<◌, ◌^◌, Some, length};

use read_traces::{Kind, Trace};

/// The kind of the event at index `n` of process `p`.
pub(crate) fn kind_of<'a>(traces: &'a [Trace], p: usize, n: usize) -> Kind<'a>
    requires process { p < length traces.now }
    requires event { n < event_count (computation_view traces.now) p }
    ensures kind { kind_at (computation_view traces.now) (event_place p n) ≡ Some (seen_kind_view result) }
    ensures small { n < 2 ^ 63 }
{
    traces[p].events.kind(n)
}
