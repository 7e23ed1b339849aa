//! The second pass, over the receipts.
ghost use Rattle.indexmap.specs.IndexMap.{index_map_len};
ghost use Rattle.read_traces.specs.Views.{computation_view};
ghost use Rattle.pd_match.specs.Noted.{HasAll, HasReceived, IsReportedOf, NoneBadBefore, again, event_place, last_receiver, place_noted, sends_marked};
ghost use Rattle.pd_match.specs.Progress.{MatchedBefore, RowTells, SendsBefore};
ghost use Rattle.pd_match.specs.Views.{match_fault_view, place_view};
ghost use Rattle.def_format.specs.Versions.{version_view};
ghost use Rattle.def_model.specs.Events as events;
ghost use Rattle.def_model.specs.Events.{Send, event_count};
ghost use Rattle.def_model.specs.Messages.{IsMessage, IsReported};
ghost use Rattle.std.specs.Prelude.{◌≡◌, ◌≢◌, ◌+◌, ◌-◌, ◌^◌, ◌<◌, ◌↔◌, ℕ, IfErr, IfOk, IfSome, List, OnOk, Some, bytes_eq, cond, false, length, nat_eq, option_map, suc};

use super::id::Id;
use super::kinds::kind_of;
use super::sender::Sender;
use super::{MatchFault, Place};
use def_format::Version;
use indexmap::IndexMap;
use read_traces::{Kind, Trace};
use std::alloc::Global;
use std::hash::BuildHasher;

/// Whether a receipt by this process is one too many, if the last process that received the message is this: 0 if there
/// is none, and else its number + 1.
fn is_again(version: Version, last: u32, process: u32) -> bool
    requires { process < 2 ^ 32 - 1 }
    ensures { result ≡ again (version_view version) last process }
{
    match version {
        Version::One => last != 0,
        Version::Two => last == process + 1,
    }
}

/// The send of the receipt of this id, which stands here. The send's mark, which has the send's index, becomes that of
/// this receiver.
fn match_receipt<'a, S: BuildHasher>(
    version: Version,
    sends: &IndexMap<Id<'a>, Place, S>,
    received: &mut Vec<u32>,
    id: &'a [u8],
    here: Place,
) -> Result<Place, MatchFault>
    requires { length received.old.items ≡ index_map_len sends.now }
    ensures sender { IfOk result (λ send. place_noted sends.now id.now ≡ Some (place_view send)) }
    ensures apart { IfOk result (λ send. send.process ≢ here.process) }
    ensures fresh { OnOk result (again (version_view version)
        (last_receiver sends.now received.old.items id.now) here.process ≡ false) }
    ensures marked { OnOk result ((other : List ℕ) → last_receiver sends.now received.new.items other
        ≡ cond (bytes_eq id.now other) (suc here.process) (last_receiver sends.now received.old.items other)) }
    ensures same { length received.new.items ≡ length received.old.items }
    ensures count { OnOk result (sends_marked received.new.items ≡ sends_marked received.old.items
        + cond (nat_eq (last_receiver sends.now received.old.items id.now) 0) 1 0) }
    ensures fault { IfErr result (λ reported. IsReportedOf (place_noted sends.now id.now)
        (again (version_view version) (last_receiver sends.now received.old.items id.now) here.process)
        (place_view here) (match_fault_view reported)) }
{
    match sends.get_index_of(&Id(id)) {
        None => Err(MatchFault::Orphan(here)),
        Some(index) => {
            let send = sends[index];
            if send.process == here.process {
                return Err(MatchFault::SelfMessage(here));
            }
            if here.process >= u32::MAX as usize {
                return Err(MatchFault::Memory);
            }
            let receiver = here.process as u32;
            if is_again(version, received[index], receiver) {
                return Err(MatchFault::ReceivedTwice(here));
            }
            received[index] = receiver + 1;
            Ok(send)
        }
    }
}

/// The send of the event at index `n` of process `p`, if it is a receipt.
fn sender_of<'a, S: BuildHasher>(
    version: Version,
    traces: &'a [Trace],
    p: usize,
    n: usize,
    sends: &IndexMap<Id<'a>, Place, S>,
    received: &mut Vec<u32>,
) -> Result<Option<Place>, MatchFault>
    requires process { p < length traces.now }
    requires event { n < event_count (computation_view traces.now) p }
    requires sent { HasAll Send (computation_view traces.now) (place_noted sends.now) }
    requires marks { length received.old.items ≡ index_map_len sends.now }
    requires before { HasReceived (computation_view traces.now) (event_place p n)
        (last_receiver sends.now received.old.items) }
    requires counted { SendsBefore (computation_view traces.now) (event_place p n) (sends_marked received.old.items) }
    requires good { NoneBadBefore (version_view version) (computation_view traces.now) (event_place p n) }
    ensures sender { IfOk result (λ sender. (send : events.Place) → (option_map place_view sender ≡ Some send)
        ↔ IsMessage (computation_view traces.now) send (event_place p n)) }
    ensures marked { OnOk result (HasReceived (computation_view traces.now) (event_place p (suc n))
        (last_receiver sends.now received.new.items)) }
    ensures same { length received.new.items ≡ length received.old.items }
    ensures count { OnOk result (SendsBefore (computation_view traces.now) (event_place p (suc n))
        (sends_marked received.new.items)) }
    ensures good { OnOk result (NoneBadBefore (version_view version) (computation_view traces.now)
        (event_place p (suc n))) }
    ensures fault { IfErr result (λ reported.
        IfSome (match_fault_view reported) (IsReported (version_view version) (computation_view traces.now))) }
{
    match kind_of(traces, p, n) {
        Kind::Recv(id) => {
            let send = match_receipt(version, sends, received, id, Place::of_event(p, n))?;
            Ok(Some(send))
        }
        _ => Ok(None),
    }
}

/// For each event of process `p` its send, if it is a receipt.
pub(crate) fn senders_in<'a, S: BuildHasher>(
    alloc: Global,
    version: Version,
    traces: &'a [Trace],
    p: usize,
    sends: &IndexMap<Id<'a>, Place, S>,
    received: &mut Vec<u32>,
) -> Result<Vec<Sender>, MatchFault>
    requires process { p < length traces.now }
    requires sent { HasAll Send (computation_view traces.now) (place_noted sends.now) }
    requires marks { length received.old.items ≡ index_map_len sends.now }
    requires before { MatchedBefore (version_view version) (computation_view traces.now) (event_place p 0)
        (last_receiver sends.now received.old.items) }
    requires counted { SendsBefore (computation_view traces.now) (event_place p 0) (sends_marked received.old.items) }
    ensures after { OnOk result (MatchedBefore (version_view version) (computation_view traces.now)
        (event_place (suc p) 0) (last_receiver sends.now received.new.items)) }
    ensures same { length received.new.items ≡ length received.old.items }
    ensures row { IfOk result (λ row. RowTells (computation_view traces.now) p row.items
        (event_count (computation_view traces.now) p)) }
    ensures count { OnOk result (SendsBefore (computation_view traces.now) (event_place (suc p) 0)
        (sends_marked received.new.items)) }
    ensures fault { IfErr result (λ reported.
        IfSome (match_fault_view reported) (IsReported (version_view version) (computation_view traces.now))) }
{
    let mut row = Vec::with_capacity(alloc, traces[p].events.len())?;
    for n in 0..traces[p].events.len() {
        let send = sender_of(version, traces, p, n, sends, received)?;
        row.push(Sender::of(send)?)?;
    }
    Ok(row)
}
