//! Where nothing but the order of one process connects two of some messages.
ghost use Rattle.judge_causes.specs.Own.{AreOwnOrders, FindsLastBefore, pair_if};
ghost use Rattle.def_model.specs.Events.{Place as ModelPlace};
ghost use Rattle.pd_clock.specs.Orders.{places_view};
ghost use Rattle.pd_clock.specs.Senders.{IsSender};
ghost use Rattle.pd_match.specs.Views.{pairs_view, place_view};
ghost use Rattle.std.specs.Prelude.{◌≡◌, ◌++◌, [], ◌∷◌, IfOk, List, OnOk, option_map};

use pd_clock::{Computation, Place};
use std::alloc::{AllocError, Global};

/// The last receipt before a send in its process, with one more receipt.
fn later(best: Option<Place>, receipt: Place, send: Place) -> Option<Place>
    ensures { (receipts : List ModelPlace) → FindsLastBefore receipts (place_view send) (option_map place_view best)
        → FindsLastBefore (receipts ++ place_view receipt ∷ []) (place_view send) (option_map place_view result) }
{
    if receipt.process != send.process {
        return best;
    }
    if receipt.number >= send.number {
        return best;
    }
    match best {
        Some(other) => {
            if receipt.number < other.number {
                Some(other)
            } else {
                Some(receipt)
            }
        }
        None => Some(receipt),
    }
}

/// The last of these receipts before a send in its process, if there is one.
fn last_before(receipts: &[Place], send: Place) -> Option<Place>
    ensures { FindsLastBefore (places_view receipts.now) (place_view send) (option_map place_view result) }
{
    let mut best = None;
    for receipt in receipts {
        best = later(best, *receipt, send);
    }
    best
}

/// The send of an event, if it is a receipt.
fn sender_of(computation: &Computation<'_>, place: Place) -> Option<Place>
    ensures { IsSender computation.now.events (place_view place) result }
{
    if computation.has(place) {
        return computation.sender(place);
    }
    None
}

/// Adds the pair of a receipt and a send, if there is a receipt.
fn push_pair(
    pairs: &mut Vec<(Place, Place)>,
    receipt: Option<Place>,
    send: Place,
) -> Result<(), AllocError>
    ensures { OnOk result (pairs_view pairs.new.items ≡ pairs_view pairs.old.items
        ++ pair_if (option_map place_view receipt) (place_view send)) }
{
    match receipt {
        Some(receipt) => Ok(pairs.push((receipt, send))?),
        None => Ok(()),
    }
}

/// Adds the pair of an event's send, if it is a receipt, and the last of these receipts before that in its process.
fn push_own_order(
    computation: &Computation<'_>,
    receipts: &[Place],
    other: Place,
    pairs: &mut Vec<(Place, Place)>,
) -> Result<(), AllocError>
    ensures { OnOk result ((received : List ModelPlace)
        → AreOwnOrders computation.now.events received (places_view receipts.now) (pairs_view pairs.old.items)
        → AreOwnOrders computation.now.events (received ++ place_view other ∷ []) (places_view receipts.now)
        (pairs_view pairs.new.items)) }
{
    match sender_of(computation, other) {
        Some(send) => push_pair(pairs, last_before(receipts, send), send),
        None => Ok(()),
    }
}

/// For each send of a message that one of these receipts receives the last of them before it in its process, if there
/// is one: the two are connected by nothing but the order in which the process was recorded. It takes time for the
/// square of their number.
///
/// # Errors
/// An allocation was refused.
pub fn own_orders(
    alloc: Global,
    computation: &Computation<'_>,
    receipts: &[Place],
) -> Result<Vec<(Place, Place)>, AllocError>
    ensures { IfOk result (λ pairs. AreOwnOrders computation.now.events (places_view receipts.now)
        (places_view receipts.now) (pairs_view pairs.items)) }
{
    let mut pairs = Vec::new(alloc);
    for receipt in receipts {
        push_own_order(computation, receipts, *receipt, &mut pairs)?;
    }
    Ok(pairs)
}
