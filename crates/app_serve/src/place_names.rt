//! What the places of a server are called to whoever runs it.
ghost use Rattle.app_arguments.specs.Table.{port_limit};
ghost use Rattle.std.specs.Prelude.{◌≡◌, ◌≤◌, ◌+◌, ◌++◌, IfOk, codes};

use super::host::Host;
use app_arguments::Place;
use app_explain::ServedPlace;
use app_host::port_of_address;
use std::alloc::{AllocError, Global};

/// What a place is called.
#[derive(Drop)]
pub enum PlaceName {
    /// By its port, as one of 127.0.0.1.
    Port(u64),
    /// By an address and a port.
    Address(String),
    /// By the path of a socket.
    Socket(String),
}

impl PlaceName {
    /// The same, as it is shown.
    pub fn shown(&self) -> ServedPlace<'_> {
        match self {
            PlaceName::Port(port) => ServedPlace::Port(*port),
            PlaceName::Address(text) => ServedPlace::Address(text.as_str()),
            PlaceName::Socket(path) => ServedPlace::Socket(path.as_str()),
        }
    }
}

/// The port of the watchers beside that of the streams: the next one, or any free one beside any free one.
pub(crate) fn watchers_port(port: u16) -> u16
    ensures any { port ≡ 0 → result ≡ 0 }
    ensures next { 1 ≤ port → port ≤ port_limit → result ≡ port + 1 }
{
    if port == 0 || port == u16::MAX {
        return port;
    }
    port + 1
}

/// The path of the watchers' socket beside that of the streams.
///
/// # Errors
/// Out of memory.
pub(crate) fn watchers_path(alloc: Global, path: &str) -> Result<String, AllocError>
    ensures { IfOk result (λ text. text.bytes.items ≡ path.now ++ codes ".watchers") }
{
    format!(in alloc; "{path}.watchers")
}

/// What a port of this address is called, or of 127.0.0.1.
fn port_name(alloc: Global, address: Option<&str>, port: u16) -> Result<PlaceName, AllocError> {
    match (address, port_of_address(address, port)) {
        (Some(_), Some(bound)) => Ok(PlaceName::Address(format!(in alloc; "{bound}")?)),
        _ => Ok(PlaceName::Port(port as u64)),
    }
}

/// What the place of the streams is called, by the port that was bound, if one was.
///
/// # Errors
/// Out of memory.
pub fn streams_name<F, N>(host: &Host<'_, F, N>) -> Result<PlaceName, AllocError> {
    match &host.service.place {
        Place::Port(address, port) => {
            let bound = host.peers.port().unwrap_or(*port);
            port_name(host.alloc, *address, bound)
        }
        Place::Socket(path) => Ok(PlaceName::Socket(String::from_str(host.alloc, *path)?)),
    }
}

/// What the place of the watchers is called, by the port that was bound, if one was.
///
/// # Errors
/// Out of memory.
pub fn watchers_name<F, N>(host: &Host<'_, F, N>) -> Result<PlaceName, AllocError> {
    match &host.service.place {
        Place::Port(address, port) => {
            let bound = host.peers.watchers_port().unwrap_or(watchers_port(*port));
            port_name(host.alloc, *address, bound)
        }
        Place::Socket(path) => Ok(PlaceName::Socket(watchers_path(host.alloc, *path)?)),
    }
}
