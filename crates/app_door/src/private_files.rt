//! Files of which sockets are only for the user who runs the program.
use std::alloc::Allocator;
use std::fs::{Metadata, OpenOptions, Permissions};
use std::net::{Net, SocketAddr};
use std::os::fd::{BorrowedFd, OwnedFd};
use std::os::unix::fs::PermissionsExt;
use std::os::unix::net::{SocketAddr as SocketPath, UnixListener};
use std::rt::Files;
use std::{fs, io};

/// Who may connect to a socket: the user who runs the program.
const OWNER_ALONE: u32 = 0o600;

/// These files, and this network; but the file of a socket is only for the user who runs the program, before anybody
/// can connect to it.
#[derive(Drop)]
struct PrivateFiles<'a, R> {
    rt: &'a R,
}

impl<'a, R: Files> Files for PrivateFiles<'a, R> {
    type File = R::File;

    type Dir = R::Dir;

    fn open_file(&self, how: &OpenOptions, path: &str) -> io::Result<R::File> {
        self.rt.open_file(how, path)
    }

    fn open_dir(&self, path: &str) -> io::Result<R::Dir> {
        self.rt.open_dir(path)
    }

    fn metadata(&self, path: &str) -> io::Result<Metadata> {
        self.rt.metadata(path)
    }

    fn symlink_metadata(&self, path: &str) -> io::Result<Metadata> {
        self.rt.symlink_metadata(path)
    }

    fn copy(&self, from: &str, to: &str) -> io::Result<u64> {
        self.rt.copy(from, to)
    }

    fn rename(&self, from: &str, to: &str) -> io::Result<()> {
        self.rt.rename(from, to)
    }

    fn remove_file(&self, path: &str) -> io::Result<()> {
        self.rt.remove_file(path)
    }

    fn create_dir(&self, path: &str) -> io::Result<()> {
        self.rt.create_dir(path)
    }

    fn remove_dir(&self, path: &str) -> io::Result<()> {
        self.rt.remove_dir(path)
    }

    fn remove_dir_all<B: Allocator>(&self, alloc: B, path: &str) -> io::Result<()> {
        self.rt.remove_dir_all(alloc, path)
    }

    /// Makes the socket's file, on which nobody listens yet, and then has it be for its owner alone; or leaves none.
    fn bind_unix(&self, socket: BorrowedFd<'_>, addr: &SocketPath) -> io::Result<()> {
        self.rt.bind_unix(socket, addr)?;
        let Some(path) = addr.as_pathname() else {
            return Err(io::Error::from(io::ErrorKind::InvalidInput));
        };
        let limited = fs::set_permissions(self.rt, path, Permissions::from_mode(OWNER_ALONE));
        if limited.is_err() {
            let _ = fs::remove_file(self.rt, path);
        }
        limited
    }
}

impl<'a, R: Net> Net for PrivateFiles<'a, R> {
    type Stream = R::Stream;

    type Listener = R::Listener;

    fn bind(&self, addr: SocketAddr) -> io::Result<R::Listener> {
        self.rt.bind(addr)
    }

    fn connect(&self, addr: SocketAddr) -> io::Result<R::Stream> {
        self.rt.connect(addr)
    }

    fn unix_socket(&self) -> io::Result<OwnedFd> {
        self.rt.unix_socket()
    }
}

/// Makes a socket at this path to which only the user who runs the program can connect.
///
/// # Errors
/// If it can't be made, as where something is at that path: then that is left as it is.
pub(crate) fn bind_private<R: Files + Net>(rt: &R, path: &str) -> io::Result<UnixListener> {
    UnixListener::bind(&PrivateFiles { rt }, path)
}
