//! What listens for connections of the system.
use super::place_connection::{Link, PlaceConnection};
use super::private_files::bind_private;
use std::net::{Net, OpenListener};
use std::os::unix::net::UnixListener;
use std::rt::Files;
use std::{fs, io};

/// Listens on a socket, whose file is removed where this is dropped.
pub struct SocketListener<R: Files + Copy> {
    listener: UnixListener,
    rt: R,
}

impl<R: Files + Copy> Drop for SocketListener<R> {
    fn drop(self) {
        let Self { listener, rt } = self;
        let Ok(address) = listener.local_addr() else {
            return;
        };
        if let Some(path) = address.as_pathname() {
            let _ = fs::remove_file(&rt, path);
        }
    }
}

/// Listens on a port, or on a socket.
#[derive(Drop)]
pub enum PlaceListener<L, R: Files + Copy> {
    /// On a port.
    Port(L),
    /// On a socket.
    Socket(SocketListener<R>),
}

/// Makes a socket at this path to which only the user who runs the program can connect, and listens on it.
///
/// # Errors
/// If it can't be made, as where something is at that path: then that is left as it is.
pub fn listen_at<R: Files + Net + Copy>(rt: &R, path: &str) -> io::Result<SocketListener<R>> {
    let listener = bind_private(rt, path)?;
    Ok(SocketListener { listener, rt: *rt })
}

impl<L: OpenListener, R: Files + Copy> PlaceListener<L, R> {
    /// The next connection.
    ///
    /// # Errors
    /// If it can't be accepted, or would be waited for by one who doesn't wait.
    pub fn accept(&self) -> io::Result<PlaceConnection<L::Stream>> {
        match self {
            PlaceListener::Port(listener) => {
                let (connection, _) = listener.accept()?;
                Ok(PlaceConnection::new(Link::Port(connection)))
            }
            PlaceListener::Socket(socket) => {
                let (connection, _) = socket.listener.accept()?;
                Ok(PlaceConnection::new(Link::Socket(connection)))
            }
        }
    }

    /// Has it wait for no connection.
    ///
    /// # Errors
    /// If that can't be had.
    pub fn wait_for_none(&self) -> io::Result<()> {
        match self {
            PlaceListener::Port(listener) => listener.set_nonblocking(true),
            PlaceListener::Socket(socket) => socket.listener.set_nonblocking(true),
        }
    }

    /// The port to which it is bound, if it is one and that is known.
    pub fn port(&self) -> Option<u16> {
        match self {
            PlaceListener::Port(listener) => match listener.local_addr() {
                Ok(address) => Some(address.port()),
                Err(_) => None,
            },
            PlaceListener::Socket(_) => None,
        }
    }
}
