//! The picture of a session that is refused for a causal cycle.
ghost use Rattle.pd_clock.specs.Orders.{places_view};
ghost use Rattle.judge_draw.specs.Cycles.{
  IsCycleDrawn,
  IsOfProcess,
  IsRefusalDrawn,
  NamesProcesses,
  StatesCycle,
  cycle_title,
};
ghost use Rattle.judge_draw.specs.Drawn.{process_names};
ghost use Rattle.def_format.specs.RefusalWords.{named_place};
ghost use Rattle.def_format.specs.Reports.{place_text, with_commas};
ghost use Rattle.def_format.specs.Reports as reports;
ghost use Rattle.pd_match.specs.Views.{pairs_view, place_view};
ghost use Rattle.def_model.specs.Messages.{IsMessageList};
ghost use Rattle.out_picture.specs.Cycles.{IsCyclePicture};
ghost use Rattle.pd_report.specs.Views as views;
ghost use Rattle.pd_spec.specs.Views.{document_view};
ghost use Rattle.read_traces.specs.Views.{computation_view};
ghost use Rattle.std.specs.Prelude.{◌≡◌, ◌↔◌, ◌++◌, All, IfOk, IfSome, IsTrue, MatchOption, None, OnOk, map, string_bytes};

use super::drawn::lane_names;
use judge_check::find_refused;
use out_picture::{EventLabel, Extent, NotedPicture, cycle_picture};
use pd_clock::Place;
use pd_pred::Names;
use pd_report::{Refusal, Report};
use pd_spec::Spec;
use read_traces::Trace;
use std::alloc::{AllocError, Global};

/// The place of an event by the name of its process, if there is such a process.
fn place_of(names: &Names, name: &str, number: u64) -> Option<Place>
    ensures { MatchOption result (¬ IsOfProcess names.now (record { name = name.now; number = number }))
        (λ place. named_place names.now (place_view place) ≡ record { name = name.now; number = number }) }
{
    match names.find(name) {
        Some(process) => Some(Place { process, number }),
        None => None,
    }
}

/// The places of events by the names of their processes, if there are such processes.
fn cycle_of(
    alloc: Global,
    names: &Names,
    places: &[(String, u64)],
) -> Result<Option<Vec<Place>>, AllocError>
    ensures { IfOk result (λ found. MatchOption found
        (¬ All (IsOfProcess names.now) (views.named_places_view places.now))
        (λ cycle. map (named_place names.now) (places_view cycle.items) ≡ views.named_places_view places.now)) }
{
    let mut cycle = Vec::with_capacity(alloc, places.len())?;
    for (name, number) in places {
        match place_of(names, name, *number) {
            Some(place) => cycle.push(place)?,
            None => return Ok(None),
        }
    }
    Ok(Some(cycle))
}

/// Appends an event: the name of its process, and its number.
fn push_place(alloc: Global, text: &mut String, name: &str, number: u64) -> Result<(), AllocError>
    ensures { OnOk result (string_bytes text.new ≡ string_bytes text.old
        ++ place_text (record { name = name.now; number = number })) }
{
    let digits = format!(in alloc; "{number}")?;
    text.push_str(name)?;
    text.push_str("#")?;
    text.push_str(&digits)
}

/// Appends events with a comma between each two.
fn push_places(alloc: Global, text: &mut String, places: &[(String, u64)]) -> Result<(), AllocError>
    ensures { OnOk result (string_bytes text.new ≡ string_bytes text.old
        ++ with_commas (map place_text (views.named_places_view places.now))) }
{
    let Some(((name, number), others)) = places.split_first() else {
        return Ok(());
    };
    push_place(alloc, text, name, *number)?;
    for (name, number) in others {
        text.push_str(",")?;
        push_place(alloc, text, name, *number)?;
    }
    Ok(())
}

/// What the picture of a cycle of these events is called.
fn cycle_title(alloc: Global, places: &[(String, u64)]) -> Result<String, AllocError>
    ensures { IfOk result (λ title. string_bytes title ≡ cycle_title (views.named_places_view places.now)) }
{
    let mut title = String::from_str(alloc, "refused cycle ")?;
    push_places(alloc, &mut title, places)?;
    Ok(title)
}

/// Whether the report is this refusal.
fn is_claimed(claimed: &Report, refusal: &Refusal) -> bool
    ensures { IsTrue result ↔ (views.report_view claimed.now ≡ reports.Refused (views.refusal_view refusal.now)) }
{
    find_refused(claimed, refusal).is_clean()
}

/// The picture of a run with this cycle and this title.
fn run_picture(
    alloc: Global,
    spec: &Spec,
    traces: &[Trace],
    pairs: &[(Place, Place)],
    title: &str,
    cycle: &[Place],
    extent: Extent,
    labels: &[EventLabel],
) -> Result<NotedPicture, AllocError>
    requires { IsMessageList (computation_view traces.now) (pairs_view pairs.now) }
    ensures { IfOk result (λ picture. IsCyclePicture (computation_view traces.now) (pairs_view pairs.now)
        (process_names (document_view spec.now)) title.now (places_view cycle.now) extent picture.drawing) }
{
    let lanes = lane_names(alloc, spec.names())?;
    cycle_picture(alloc, traces, pairs, &lanes, title, cycle, extent, labels)
}

/// The picture of a run with this cycle, whose places are these by the names of their processes.
fn titled_picture(
    alloc: Global,
    spec: &Spec,
    traces: &[Trace],
    pairs: &[(Place, Place)],
    places: &[(String, u64)],
    cycle: &[Place],
    extent: Extent,
    labels: &[EventLabel],
) -> Result<NotedPicture, AllocError>
    requires messages { IsMessageList (computation_view traces.now) (pairs_view pairs.now) }
    requires named { map (named_place (document_view spec.now).names) (places_view cycle.now)
        ≡ views.named_places_view places.now }
    ensures { IfOk result (λ picture. IsCycleDrawn (document_view spec.now) (computation_view traces.now)
        (pairs_view pairs.now) (views.named_places_view places.now) extent picture.drawing) }
{
    let title = cycle_title(alloc, places)?;
    let picture = run_picture(alloc, spec, traces, pairs, &title, cycle, extent, labels)?;
    Ok(picture)
}

/// The picture of a run with the cycle of these places, if there are such processes.
fn draw_places(
    alloc: Global,
    spec: &Spec,
    traces: &[Trace],
    pairs: &[(Place, Place)],
    places: &[(String, u64)],
    extent: Extent,
    labels: &[EventLabel],
) -> Result<Option<NotedPicture>, AllocError>
    requires { IsMessageList (computation_view traces.now) (pairs_view pairs.now) }
    ensures { IfOk result (λ drawn. MatchOption drawn
        (¬ All (IsOfProcess (document_view spec.now).names) (views.named_places_view places.now))
        (λ picture. IsCycleDrawn (document_view spec.now) (computation_view traces.now) (pairs_view pairs.now)
        (views.named_places_view places.now) extent picture.drawing)) }
{
    let found = cycle_of(alloc, spec.names(), places)?;
    match found {
        Some(cycle) => {
            let picture = titled_picture(
                alloc, spec, traces, pairs, places, &cycle, extent, labels,
            )?;
            Ok(Some(picture))
        }
        None => Ok(None),
    }
}

/// The picture of a session that is refused like this, with its cycle marked, if it is refused for a cycle and the
/// report says so.
///
/// # Errors
/// Out of memory.
pub fn draw_cycle(
    alloc: Global,
    spec: &Spec,
    claimed: &Report,
    traces: &[Trace],
    pairs: &[(Place, Place)],
    refusal: &Refusal,
    extent: Extent,
    labels: &[EventLabel],
) -> Result<Option<NotedPicture>, AllocError>
    requires messages { IsMessageList (computation_view traces.now) (pairs_view pairs.now) }
    requires named { NamesProcesses (document_view spec.now).names (views.refusal_view refusal.now) }
    ensures drawn { IfOk result (λ drawn. IfSome drawn (λ picture. IsRefusalDrawn (document_view spec.now)
        (computation_view traces.now) (pairs_view pairs.now) (views.refusal_view refusal.now) extent
        picture.drawing)) }
    ensures claimed { IfOk result (λ drawn. IfSome drawn (λ _.
        views.report_view claimed.now ≡ reports.Refused (views.refusal_view refusal.now))) }
    // There is no picture exactly if the session is refused for something else, or the report says something else.
    ensures undrawn { IfOk result (λ drawn. drawn ≡ None
        → ¬ StatesCycle (views.report_view claimed.now) (views.refusal_view refusal.now)) }
{
    if !is_claimed(claimed, refusal) {
        return Ok(None);
    }
    match refusal {
        Refusal::Cycle(places) => {
            draw_places(alloc, spec, traces, pairs, places, extent, labels)
        }
        _ => Ok(None),
    }
}
