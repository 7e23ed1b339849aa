//! Matches sends and receipts.
ghost use Rattle.read_traces.specs.Views.{computation_view};
ghost use Rattle.pd_match.specs.Noted.{HasAll, place_noted, sends_marked};
ghost use Rattle.pd_match.specs.Views.{match_fault_view};
ghost use Rattle.def_format.specs.Versions.{version_view};
ghost use Rattle.def_model.specs.Events.{Send};
ghost use Rattle.def_model.specs.Messages.{HasLawfulMessages, IsMessageList, IsReported};
ghost use Rattle.std.specs.Prelude.{◌≡◌, IfErr, IfOk, IfSome};

use super::hashing::{IdKeys, random_keys};
use super::id::Id;
use super::receiving::senders_in;
use super::sending::sends_of;
use super::{MatchFault, Matched, Place};
use def_format::Version;
use indexmap::IndexMap;
use read_traces::Trace;
use std::alloc::Global;
use std::hash::{BuildHasher, BuildHasherDefault, FoldHasher};
use std::random::RandomSource;

/// How many sends have a receiver.
fn count_of(received: &[u32]) -> u64
    ensures { result ≡ sends_marked received.now }
{
    let mut count = 0;
    for last in received {
        if *last != 0 {
            count += 1;
        }
    }
    count
}

/// Matches the receipts with these sends.
fn match_receipts<'a, S: BuildHasher>(
    alloc: Global,
    version: Version,
    traces: &'a [Trace],
    sends: &IndexMap<Id<'a>, Place, S>,
) -> Result<Matched, MatchFault>
    requires { HasAll Send (computation_view traces.now) (place_noted sends.now) }
    ensures lawful { IfOk result (λ matched. HasLawfulMessages (version_view version) (computation_view traces.now)) }
    ensures messages { IfOk result (λ matched. IsMessageList (computation_view traces.now) matched) }
    ensures fault { IfErr result (λ reported.
        IfSome (match_fault_view reported) (IsReported (version_view version) (computation_view traces.now))) }
{
    let mut received = vec![in alloc; 0u32; sends.len()]?;
    let mut senders = Vec::with_capacity(alloc, traces.len())?;
    for p in 0..traces.len() {
        senders.push(senders_in(alloc, version, traces, p, sends, &mut received)?)?;
    }
    Ok(Matched::new(senders, count_of(&received)))
}

/// Matches sends and receipts. Ids are looked up in a map with this hasher.
fn match_by<S: BuildHasher + Drop>(
    alloc: Global,
    version: Version,
    traces: &[Trace],
    hasher: S,
) -> Result<Matched, MatchFault>
    ensures lawful { IfOk result (λ matched. HasLawfulMessages (version_view version) (computation_view traces.now)) }
    ensures messages { IfOk result (λ matched. IsMessageList (computation_view traces.now) matched) }
    ensures fault { IfErr result (λ reported.
        IfSome (match_fault_view reported) (IsReported (version_view version) (computation_view traces.now))) }
{
    let sends = sends_of(alloc, traces, hasher)?;
    match_receipts(alloc, version, traces, &sends)
}

/// Matches the sends and receipts of traces, which stand in the order of the processes: each receipt with the send that
/// has its id. In version 1 one process receives a message, and in version 2 several may, each once. Ids are looked up
/// in a map that is hashed with keys from the system, or with fixed ones if it gives none.
///
/// # Errors
/// The first send whose id is sent at an earlier place; if there is none, the first receipt that is at fault; or
/// `Memory`.
pub fn match_messages<R: RandomSource>(
    rt: &R,
    alloc: Global,
    version: Version,
    traces: &[Trace],
) -> Result<Matched, MatchFault>
    ensures lawful { IfOk result (λ matched. HasLawfulMessages (version_view version) (computation_view traces.now)) }
    ensures messages { IfOk result (λ matched. IsMessageList (computation_view traces.now) matched) }
    ensures fault { IfErr result (λ reported.
        IfSome (match_fault_view reported) (IsReported (version_view version) (computation_view traces.now))) }
{
    match random_keys(rt) {
        Ok(keys) => match_by(alloc, version, traces, IdKeys(&keys)),
        Err(_) => {
            let fixed: BuildHasherDefault<FoldHasher> = BuildHasherDefault::new();
            match_by(alloc, version, traces, fixed)
        }
    }
}
