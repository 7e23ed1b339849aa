//! Accepts the connections that are streams.
ghost use Rattle.app_arguments.specs.Places as places;
ghost use Rattle.app_serve.specs.declared.service_fault.ServiceFault.TheVariants as faults;
ghost use Rattle.std.specs.Prelude.{◌≡◌, ◌⊎◌, IfErr, IfOk, IsOk, None, false, true};

use super::host::Host;
use super::service_fault::ServiceFault;
use super::strangers::tell_stranger;
use app_door::{Door, Room};
use app_host::Network;
use judge_session::EngineFault;
use pd_engine::Spec;
use std::io;
use std::io::ErrorKind;
use std::time::Instant;

/// The place where the streams are accepted, and until when, if there is an end.
#[derive(Drop)]
pub(crate) struct Entrance<L> {
    pub(crate) listener: L,
    pub(crate) end: Option<Instant>,
}

/// The fault of a network that failed for this reason.
fn network_fault(error: &io::Error) -> ServiceFault
    ensures { (result ≡ faults.Network) ⊎ (result ≡ faults.Engine EngineFault.Memory) }
{
    if error.kind() == ErrorKind::OutOfMemory {
        return ServiceFault::Engine(EngineFault::Memory);
    }
    ServiceFault::Network
}

/// The line that connections have to send first, if there is one.
///
/// # Errors
/// `Network`, if it stands in a file that can't be read, which is noted, and `Memory`.
fn token_of<F, N: Network>(host: &Host<'_, F, N>) -> Result<Option<Vec<u8>>, ServiceFault>
    ensures sure { N.never_fails ≡ true → IfErr result (λ fault. fault ≡ faults.Engine EngineFault.Memory) }
    ensures err { IfErr result (λ fault. (fault ≡ faults.Network) ⊎ (fault ≡ faults.Engine EngineFault.Memory)) }
{
    let admission = &host.service.admission;
    let Some(name) = admission.token_file else {
        return match admission.token {
            Some(text) => Ok(Some(Vec::from_slice(host.alloc, text.as_bytes())?)),
            None => Ok(None),
        };
    };
    match host.network.token(host.alloc, name) {
        Ok(token) => Ok(Some(token)),
        Err(error) => {
            host.peers.note_unread_token(host.alloc, name, &error);
            Err(network_fault(&error))
        }
    }
}

/// The room in which connections wait that have to say something before they are streams, if they have to.
///
/// # Errors
/// `Network`, if the file of the token can't be read, which is noted, and `Memory`.
pub(crate) fn room_for<'a, F, N: Network>(
    host: &Host<'_, F, N>,
    spec: &'a Spec,
) -> Result<Option<Room<'a, N::Connection>>, ServiceFault>
    ensures sure { N.never_fails ≡ true → IfErr result (λ fault. fault ≡ faults.Engine EngineFault.Memory) }
    ensures err { IfErr result (λ fault. (fault ≡ faults.Network) ⊎ (fault ≡ faults.Engine EngineFault.Memory)) }
{
    if !host.service.admission.asks() {
        return Ok(None);
    }
    let token = token_of(host)?;
    Ok(Some(Room::new(host.alloc, Door { spec, token })))
}

/// The next connection, whatever it sends.
///
/// # Errors
/// `Network`, if it can't be accepted, and `Late`, if it doesn't come in time.
fn next_connection<F, N: Network>(
    host: &Host<'_, F, N>,
    entrance: &Entrance<N::Listener>,
) -> Result<N::Connection, ServiceFault>
    ensures given { IfOk result (λ connection. (at : places.Place) → N.is_on entrance.now.listener at
        → N.may_give host.now.network.now at (N.Connection.left connection)) }
    ensures open { IfOk result (λ connection. N.Connection.has_ended connection ≡ false) }
    ensures sure { entrance.now.end ≡ None → N.never_fails ≡ true → IsOk result }
    ensures err { IfErr result (λ fault. (fault ≡ faults.Network) ⊎ (fault ≡ faults.Late)
        ⊎ (fault ≡ faults.Engine EngineFault.Memory)) }
{
    match host
        .network
        .next_connection(&entrance.listener, entrance.end)
    {
        Ok(Some(connection)) => Ok(connection),
        Ok(None) => Err(ServiceFault::Late),
        Err(error) => Err(network_fault(&error)),
    }
}

/// The next connection that joins a process that has no stream. Of each other one it is told that it is closed.
///
/// # Errors
/// `Network`, if it can't be accepted, `Late`, if it doesn't come in time, and `Memory`.
fn next_joined<F, N: Network>(
    host: &Host<'_, F, N>,
    entrance: &Entrance<N::Listener>,
    room: &mut Room<'_, N::Connection>,
) -> Result<N::Connection, ServiceFault>
    ensures given { IfOk result (λ connection. (at : places.Place) → N.is_on entrance.now.listener at
        → N.may_give host.now.network.now at (N.Connection.left connection)) }
    ensures open { IfOk result (λ connection. N.Connection.has_ended connection ≡ false) }
    ensures sure { entrance.now.end ≡ None → N.never_fails ≡ true → IsOk result }
    ensures err { IfErr result (λ fault. (fault ≡ faults.Network) ⊎ (fault ≡ faults.Late)
        ⊎ (fault ≡ faults.Engine EngineFault.Memory)) }
{
    for _arrival in 0..u64::MAX {
        match host
            .network
            .next_arrival(&entrance.listener, room, entrance.end)
        {
            Ok(Ok(Some(connection))) => return Ok(connection),
            Ok(Ok(None)) => {
                host.peers.note_waiting(room.len());
                return Err(ServiceFault::Late);
            }
            Ok(Err(stranger)) => tell_stranger(host, &stranger),
            Err(error) => return Err(network_fault(&error)),
        }
    }
    next_connection(host, entrance)
}

/// The next connection that is a stream, which ends once it says nothing for as long as is asked.
///
/// # Errors
/// `Network`, if it can't be accepted, `Late`, if it doesn't come in time, and `Memory`.
pub(crate) fn next_stream<F, N: Network>(
    host: &Host<'_, F, N>,
    entrance: &Entrance<N::Listener>,
    room: &mut Option<Room<'_, N::Connection>>,
) -> Result<N::Connection, ServiceFault>
    ensures given { IfOk result (λ connection. (at : places.Place) → N.is_on entrance.now.listener at
        → N.may_give host.now.network.now at (N.Connection.left connection)) }
    ensures open { IfOk result (λ connection. N.Connection.has_ended connection ≡ false) }
    ensures sure { entrance.now.end ≡ None → N.never_fails ≡ true → IsOk result }
    ensures err { IfErr result (λ fault. (fault ≡ faults.Network) ⊎ (fault ≡ faults.Late)
        ⊎ (fault ≡ faults.Engine EngineFault.Memory)) }
{
    let connection = match room {
        Some(room) => next_joined(host, entrance, room)?,
        None => next_connection(host, entrance)?,
    };
    if let Some(seconds) = host.service.admission.idle {
        if let Err(error) = host.network.limit_silence(&connection, seconds) {
            return Err(network_fault(&error));
        }
    }
    Ok(connection)
}
