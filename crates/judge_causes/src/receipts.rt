//! The receipts of a run.
ghost use Rattle.judge_causes.specs.Receipts.{all_receipts, receipt_if, receipts_from};
ghost use Rattle.def_model.specs.Events.{Event};
ghost use Rattle.pd_clock.specs.Orders.{places_view};
ghost use Rattle.pd_match.specs.Views.{place_view};
ghost use Rattle.read_traces.specs.Columns.{seen_kind_view};
ghost use Rattle.read_traces.specs.Views.{computation_view};
ghost use Rattle.std.specs.Prelude.{◌≡◌, ◌++◌, IfOk, OnOk};

use pd_clock::Place;
use read_traces::{Events, Kind, Trace};
use std::alloc::{AllocError, Global};

/// Adds the place, if the event there is a receipt.
fn push_receipt(receipts: &mut Vec<Place>, receipt: Place, kind: Kind<'_>) -> Result<(), AllocError>
    ensures { OnOk result (places_view receipts.new.items ≡ places_view receipts.old.items
        ++ receipt_if (place_view receipt) (seen_kind_view kind.entry)) }
{
    match kind {
        Kind::Local | Kind::Send(_) => Ok(()),
        Kind::Recv(_) => Ok(receipts.push(receipt)?),
    }
}

/// Adds the receipts of a process.
fn push_receipts(
    receipts: &mut Vec<Place>,
    process: usize,
    events: &Events,
) -> Result<(), AllocError>
    ensures { OnOk result (places_view receipts.new.items ≡ places_view receipts.old.items
        ++ receipts_from process 0 events.now) }
{
    for k in 0..events.len() {
        let kind = events.kind(k);
        let number = k as u64 + 1;
        push_receipt(receipts, Place { process, number }, kind)?;
    }
    Ok(())
}

/// The receipts of a run, in the order of their places.
///
/// # Errors
/// An allocation was refused.
pub(crate) fn receipts_of(alloc: Global, traces: &[Trace]) -> Result<Vec<Place>, AllocError>
    ensures { IfOk result (λ receipts. places_view receipts.items
        ≡ all_receipts 0 (computation_view traces.now)) }
{
    let mut receipts = Vec::new(alloc);
    for p in 0..traces.len() {
        push_receipts(&mut receipts, p, &traces[p].events)?;
    }
    Ok(receipts)
}
