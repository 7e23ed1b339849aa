//! What is told at once of the streams of a server.
use pd_gather::StreamFault;
use std::io;

/// Is told at once, on any thread, what becomes of the streams of a server.
pub trait Notices {
    /// The stream at this place, which is counted from 0, has connected.
    fn has_connected(&self, place: usize);

    /// It is noted how the stream at this place begins. It gives the name of the stream's file, if that is another one
    /// from here on.
    fn has_begun(&self, place: usize) -> Option<String>;

    /// The stream at this place has this fault.
    fn has_fault(&self, place: usize, fault: StreamFault);

    /// What comes of a stream isn't kept any more in the file of this name, for this error.
    fn stops_keeping(&self, path: &str, error: &io::Error);
}
