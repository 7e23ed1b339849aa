//! The messages of a session.
ghost use Rattle.pd_match.specs.Noted.{CountsSends, pairs_from, pairs_in, sender_at};
ghost use Rattle.pd_match.specs.Views.{pairs_view, place_view};
ghost use Rattle.def_model.specs.Events as events;
ghost use Rattle.std.specs.Prelude.{◌≡◌, ◌↔◌, ◌++◌, ◌<◌, ◌^◌, Contains, IfOk, OnOk, Some, length, option_map};

use super::Place;
use super::sender::Sender;
use std::alloc::{AllocError, Global};
use std::marker::Model;

/// The messages of a session. A clause sees them as the list of their sends and receipts, in the order of the receipts.
#[derive(Drop)]
pub struct Matched {
    // For each process and each of its events the send, if it is a receipt.
    senders: Vec<Vec<Sender>>,
    // How many sends are received.
    messages: u64,
}

impl Model for Matched {
    ghost use Rattle.std.specs.Prelude.{◌≡◌, ◌↔◌, List, Contains, Some};
    ghost use Rattle.def_model.specs.Events as events;
    ghost use Rattle.pd_match.specs.Noted.{CountsSends, pairs_in, sender_at};

    ghost Value = { List (events.Place × events.Place) };

    ghost view = { λ m. pairs_in 0 m.senders.items };

    ghost invariant = { λ m. CountsSends (pairs_in 0 m.senders.items) m.messages
        × ((send receipt : events.Place) → Contains (pairs_in 0 m.senders.items) (send, receipt)
        ↔ (sender_at m.senders.items receipt ≡ Some send)) };
}

/// Adds the messages that process `p` receives, of which this is the row of senders.
fn push_pairs(pairs: &mut Vec<(Place, Place)>, p: usize, row: &[Sender]) -> Result<(), AllocError>
    requires { length row.now < 2 ^ 63 }
    ensures { OnOk result (pairs_view pairs.new.items ≡ pairs_view pairs.old.items ++ pairs_from p 0 row.now) }
{
    for n in 0..row.len() {
        if let Some(send) = row[n].send() {
            pairs.push((send, Place::of_event(p, n)))?;
        }
    }
    Ok(())
}

/// The messages of a table of senders.
fn pairs_in(alloc: Global, rows: &[Vec<Sender>]) -> Result<Vec<(Place, Place)>, AllocError>
    ensures { IfOk result (λ pairs. pairs_view pairs.items ≡ pairs_in 0 rows.now) }
{
    let mut pairs = Vec::new(alloc);
    for p in 0..rows.len() {
        push_pairs(&mut pairs, p, &rows[p])?;
    }
    Ok(pairs)
}

impl Matched {
    /// The messages of this table, which has for each process and each of its events the send, if it is a receipt; and
    /// how many sends are received.
    pub(crate) fn new(senders: Vec<Vec<Sender>>, messages: u64) -> Matched
        requires count { CountsSends (pairs_in 0 senders.items) messages }
        requires found { (send receipt : events.Place) → Contains (pairs_in 0 senders.items) (send, receipt)
            ↔ (sender_at senders.items receipt ≡ Some send) }
        ensures { result ≡ pairs_in 0 senders.items }
    {
        Matched { senders, messages }
    }

    /// The messages, each as its send and its receipt, in the order of the receipts: a send that several processes
    /// receive stands once for each. A picture has an arrow for each of them.
    ///
    /// # Errors
    /// An allocation was refused.
    pub fn pairs(&self, alloc: Global) -> Result<Vec<(Place, Place)>, AllocError>
        ensures { IfOk result (λ pairs. pairs_view pairs.items ≡ self.now) }
    {
        pairs_in(alloc, &self.senders)
    }

    /// The send of this receipt, if the place is that of a receipt.
    pub fn sender(&self, receipt: Place) -> Option<Place>
        ensures { (send : events.Place) → Contains self.now (send, place_view receipt)
            ↔ (option_map place_view result ≡ Some send) }
    {
        let row = self.senders.get(receipt.process)?;
        let index = receipt.number.checked_sub(1)?;
        row.get(index as usize)?.send()
    }

    /// How many messages there are: how many sends are received, by one process or by several.
    pub fn messages(&self) -> u64
        ensures { CountsSends self.now result }
    {
        self.messages
    }
}
