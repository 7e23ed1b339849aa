//! The send of an event, as the table of senders keeps it.
ghost use Rattle.pd_match.specs.Noted.{send_in};
ghost use Rattle.pd_match.specs.Views.{place_view};
ghost use Rattle.pd_match.specs.declared.fault.MatchFault.TheVariants.{Memory};
ghost use Rattle.std.specs.Prelude.{◌≡◌, ◌≤◌, IfErr, IfOk, IfSome, option_map};

use super::{MatchFault, Place};

/// The send of an event, if the event is a receipt, in half the memory of a place.
#[derive(Clone, Copy)]
pub(crate) struct Sender {
    process: u32,
    // 0 if the event is no receipt.
    number: u32,
}

impl Sender {
    /// What is kept of a send.
    ///
    /// # Errors
    /// `Memory` if its process or its number is 2^32 or more, for which there is no room.
    pub(crate) fn of(send: Option<Place>) -> Result<Sender, MatchFault>
        requires { IfSome send (λ place. 1 ≤ place.number) }
        ensures kept { IfOk result (λ sender. send_in sender ≡ option_map place_view send) }
        ensures refused { IfErr result (λ fault. fault ≡ Memory) }
    {
        match send {
            None => Ok(Sender {
                process: 0,
                number: 0,
            }),
            Some(place) => {
                if place.process > u32::MAX as usize || place.number > u32::MAX as u64 {
                    return Err(MatchFault::Memory);
                }
                Ok(Sender {
                    process: place.process as u32,
                    number: place.number as u32,
                })
            }
        }
    }

    /// The send, if there is one.
    pub(crate) fn send(self) -> Option<Place>
        ensures { option_map place_view result ≡ send_in self }
    {
        if self.number == 0 {
            return None;
        }
        Some(Place {
            process: self.process as usize,
            number: self.number as u64,
        })
    }
}
