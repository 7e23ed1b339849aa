//! The orders of the runs so far, with what is known of each.
ghost use Rattle.def_format.specs.Documents as documents;
ghost use Rattle.judge_orders.specs.OrderViews.{named_view, processes_view};
ghost use Rattle.judge_orders.specs.declared.order.Order as orders;
ghost use Rattle.judge_shared.specs.Sharing.{AreRightIfKnown, IsAt, IsEntry};
ghost use Rattle.std.specs.Bool.{OnTrue};
ghost use Rattle.std.specs.Prelude.{◌≡◌, ◌<◌, All, IfSome, List, length, ℕ};

use indexmap::IndexMap;
use judge_orders::Order;
use pd_report::Answer;
use std::alloc::{AllocError, AllocFailed, Global};

/// How many bytes of memory the orders of runs may take. Beyond that no order is kept any more: further runs share the
/// answers of those that are, and how many orders there are is unknown.
const ORDER_BYTE_LIMIT: u64 = 268_435_456;

/// A document and an order of its runs.
#[derive(Drop)]
pub(crate) struct Entry {
    /// The document's bytes.
    pub(crate) document: Vec<u8>,
    /// The order.
    pub(crate) order: Order,
    /// The answers for each predicate, without evidence, if none is unknown.
    pub(crate) answers: Option<Vec<Answer>>,
    /// The place of the entry before this one that has the same fingerprint.
    pub(crate) before: Option<usize>,
}

/// The orders of the runs so far, with the answers of those of which none is unknown.
///
/// To find one takes the time that comparing it with one other takes, by a fingerprint of its numbers. The memory is
/// bounded: about 256 MiB.
#[derive(Drop)]
pub struct Orders {
    pub(crate) entries: Vec<Entry>,
    /// By fingerprint the place of the last entry that has it.
    places: IndexMap<u64, usize>,
    /// How many bytes more may be kept; `None` once there was an order that couldn't be.
    room: Option<u64>,
}

/// A fingerprint of a document and an order of its runs. Any value serves: it says where to look first.
fn fingerprint(document: &[u8], order: &Order) -> u64 {
    let mut mixed = order.fingerprint();
    for &byte in document {
        mixed = (mixed ^ byte as u64).wrapping_mul(0x0100_0000_01b3);
    }
    mixed
}

/// Whether the entry is of this document and this order.
fn is_of(entry: &Entry, document: &[u8], order: &Order) -> bool
    ensures { OnTrue result ((entry.now.document.items ≡ document.now)
        × (named_view entry.now.order ≡ named_view order.now)
        × (processes_view entry.now.order ≡ processes_view order.now)) }
{
    entry.document.as_slice() == document && entry.order.is_same(order)
}

/// The place of the entry of this document and this order, from this place on towards the first that has its
/// fingerprint.
fn place_from(
    entries: &[Entry],
    last: Option<usize>,
    document: &[u8],
    order: &Order,
) -> Option<usize>
    ensures { IfSome result (IsAt entries.now document.now order.now) }
{
    let mut end = entries.len();
    let mut next = last;
    while let Some(place) = next {
        if place >= end {
            return None;
        }
        if is_of(&entries[place], document, order) {
            return Some(place);
        }
        end = place;
        next = entries[place].before;
    }
    None
}

/// Puts these answers in the entry at this place, unless it has some.
fn set_answers(entries: &mut [Entry], place: usize, answers: Option<Vec<Answer>>)
    requires { place < length entries.old }
    ensures { (options : documents.Options) (bytes : List ℕ) (order : orders.Order)
        → IsAt entries.old bytes order place → AreRightIfKnown options bytes order answers
        → All (IsEntry options) entries.old → All (IsEntry options) entries.new }
{
    if entries[place].answers.is_none() {
        entries[place].answers = answers;
    }
}

impl Orders {
    ghost use Rattle.def_format.specs.Documents as documents;
    ghost use Rattle.judge_shared.specs.Sharing.{AreRight, AreRightIfKnown, AreSound, IsAt, answers_view};
    ghost use Rattle.std.specs.Prelude.{IfSome, OnOk};

    /// Of no run.
    pub fn new(alloc: Global) -> Orders
        ensures { (options : documents.Options) → AreSound options result }
    {
        Orders {
            entries: Vec::new(alloc),
            places: IndexMap::new(alloc),
            room: Some(ORDER_BYTE_LIMIT),
        }
    }

    /// How many orders there are, which differ, or belong to different documents. `None` once they took too much memory
    /// for all of them to be kept.
    pub fn count(&self) -> Option<u64> {
        match self.room {
            Some(_) => Some(self.entries.len() as u64),
            None => None,
        }
    }

    /// The place of the entry of this document and this order.
    fn place_of(&self, document: &[u8], order: &Order) -> Option<usize>
        ensures { IfSome result (IsAt self.now.entries.items document.now order.now) }
    {
        let last = self.places.get(&fingerprint(document, order)).copied();
        place_from(&self.entries, last, document, order)
    }

    /// The answers of the runs of this document and this order, without evidence, if they are known.
    pub(crate) fn find(&self, document: &[u8], order: &Order) -> Option<&[Answer]>
        ensures { IfSome result (λ found. (options : documents.Options) → AreSound options self.now
            → AreRight options document.now order.now (answers_view found.now)) }
    {
        let place = self.place_of(document, order)?;
        match &self.entries[place].answers {
            Some(answers) => Some(answers.as_slice()),
            None => None,
        }
    }

    /// Puts an entry after the others, if there is room for it.
    fn push(
        &mut self,
        document: Vec<u8>,
        order: Order,
        answers: Option<Vec<Answer>>,
    ) -> Result<(), AllocError>
        ensures { OnOk result ((options : documents.Options) → AreSound options self.old
            → AreRightIfKnown options document.items order answers
            → AreSound options self.new) }
    {
        let bytes = order.bytes().saturating_add(document.len() as u64);
        match self.room {
            Some(room) if bytes <= room => {
                let place = self.entries.len();
                let before = self.places.insert(fingerprint(&document, &order), place)?;
                self.entries.push(Entry {
                    document,
                    order,
                    answers,
                    before,
                })?;
                self.room = Some(room - bytes);
            }
            _ => self.room = None,
        }
        Ok(())
    }

    /// Notes what is known of the runs of this document and this order.
    ///
    /// # Errors
    /// An allocation was refused.
    pub(crate) fn note(
        &mut self,
        document: Vec<u8>,
        order: Order,
        answers: Option<Vec<Answer>>,
    ) -> Result<(), AllocError>
        ensures { OnOk result ((options : documents.Options) → AreSound options self.old
            → AreRightIfKnown options document.items order answers
            → AreSound options self.new) }
    {
        match self.place_of(&document, &order) {
            Some(place) => {
                set_answers(&mut self.entries, place, answers);
                Ok(())
            }
            None => self.push(document, order, answers),
        }
    }
}
