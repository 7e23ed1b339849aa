//! The order of a run.
ghost use Rattle.judge_orders.specs.Lists.{lists_view};
ghost use Rattle.judge_orders.specs.OrderViews.{HasOrder, named_view, processes_view};
ghost use Rattle.pd_spec.specs.Views.{document_view};
ghost use Rattle.std.specs.Prelude.{◌≡◌, ◌↔◌, IfOk, IsTrue, length};

use super::hashing::hash_of;
use super::kept::all_kept_events;
use super::memory::{named_bytes, process_bytes};
use super::named::named_vars;
use super::ranks::columns;
use super::same::{is_same_named, is_same_processes};
use super::seen::process_orders;
use pd_clock::Computation;
use pd_spec::Spec;
use std::alloc::{AllocError, Global};

/// What is seen of a process, if only some of its variables are.
#[derive(Drop)]
pub struct ProcessOrder {
    /// What these variables are worth at the beginning, and after each event that sets one of them to another value.
    pub(crate) values: Vec<i64>,
    /// For each of these events, and each process, how many of that process's such events are it or happened before it.
    pub(crate) known: Vec<u16>,
}

/// The order of a run: what is seen of it, if only the variables are that its document's predicates name. Runs of one
/// document and one order have the same answers.
#[derive(Drop)]
pub struct Order {
    /// For each process the variables of it that are seen, counted from 0.
    pub(crate) named: Vec<Vec<usize>>,
    /// What is seen of each process.
    pub(crate) processes: Vec<ProcessOrder>,
}

impl ProcessOrder {
    /// What the process's variables that are seen are worth at the beginning and after each kept event: a row for each,
    /// one after another.
    pub fn values(&self) -> &[i64] {
        self.values.as_slice()
    }

    /// How many kept events of each process are a kept event or happened before it: a row for each kept event, one
    /// after another.
    pub fn known(&self) -> &[u16] {
        self.known.as_slice()
    }
}

impl Order {
    /// The variables of each process that are seen, counted from 0.
    pub fn named(&self) -> &[Vec<usize>]
        ensures { lists_view result.now ≡ named_view self.now }
    {
        self.named.as_slice()
    }

    /// What is seen of each process.
    pub fn processes(&self) -> &[ProcessOrder] {
        self.processes.as_slice()
    }

    /// Whether two orders are the same.
    ///
    /// It takes time for the numbers of one of them, and less if they differ.
    pub fn is_same(&self, other: &Order) -> bool
        ensures { IsTrue result ↔ ((named_view self.now ≡ named_view other.now)
            × (processes_view self.now ≡ processes_view other.now)) }
    {
        is_same_named(&self.named, &other.named)
            && is_same_processes(&self.processes, &other.processes)
    }

    /// A number that says where to look for an equal order first: orders that are the same have the same number, and
    /// others seldom do. No clause speaks of it, since any value serves: what is found by it is compared as a whole
    /// ([`Order::is_same`]).
    ///
    /// It takes time for the numbers of the order.
    pub fn fingerprint(&self) -> u64 {
        hash_of(&self.processes)
    }

    /// About how many bytes of memory the order takes. No clause speaks of it, since it decides no answer.
    ///
    /// It takes time for the processes.
    pub fn bytes(&self) -> u64 {
        named_bytes(&self.named).saturating_add(process_bytes(&self.processes))
    }
}

/// The order of a run of this document.
///
/// It takes time for the events of each process that has a variable that is seen, times its variables, and for the
/// events that are kept, times the processes. The order has memory for the kept events alone, times the variables of
/// their process and the processes. While it is made, each process that keeps an event has a count for each of its
/// events too.
///
/// # Errors
/// An allocation was refused.
pub fn order_of(
    alloc: Global,
    spec: &Spec,
    computation: &Computation<'_>,
) -> Result<Order, AllocError>
    requires names { length computation.now.events ≡ length (document_view spec.now).names }
    ensures order { IfOk result (HasOrder (document_view spec.now) computation.now) }
{
    let named = named_vars(alloc, computation.processes(), spec.predicates())?;
    let numbers = all_kept_events(alloc, computation, &named)?;
    let columns = columns(alloc, computation, &numbers)?;
    let processes = process_orders(alloc, computation, &named, &numbers, &columns)?;
    Ok(Order { named, processes })
}
