//! The streams of a session: their bytes in any interleaving, and the traces that they make.
//!
//! A core takes the inputs of all streams in whatever order they come. Once each stream is closed its outcome has the
//! reading of each stream's bytes, and depends on nothing else.
//!
//! `read_streams` reads each stream from a source of its own, on a thread of its own. While a stream is read, the steps
//! of its records are posted in a register that the threads share, and no lock is held while bytes are read. A source
//! is asked again only if its last read gave a byte. An observer may watch the register meanwhile, on one thread more:
//! it changes nothing of what is read (`read_streams_watched`).
//!
//! `session` puts the traces into the order of the processes, or finds the first refusal; `session_within` does so for
//! any number of streams.
//!
//! - `input`: what can come of a stream
//! - `gathered`: the readings of all streams
//! - `streams`: the streams while they are read
//! - `byte_source`: where bytes come from
//! - `whole_bytes`: bytes that are all there
//! - `limited`: reads a source up to a limit
//! - `read_fault`: why bytes weren't read
//! - `posting`: the posts of a stream that is read
//! - `readers`: a stream that is read from a source
//! - `gathering`: the streams of a session, each read on its own thread
//! - `observer`: who watches the register while streams are read
//! - `watching`: the same streams, while an observer watches them on one thread more
//! - `gather_fault`: why streams weren't gathered
//! - `unread`: streams that are too many to be read
//! - `session_streams`: the streams of a session at one place
//! - `fault`: why streams are no session
//! - `traces`: the traces of a session
#![tactic(auto)]

mod byte_source;
mod fault;
mod gather_fault;
mod gathered;
mod gathering;
mod input;
mod limited;
mod observer;
mod posting;
mod read_fault;
mod readers;
mod session_streams;
mod streams;
mod traces;
mod unread;
mod watching;
mod whole_bytes;

pub use byte_source::ByteSource;
pub use fault::SessionFault;
pub use gather_fault::GatherFault;
pub use gathered::Gathered;
pub use gathering::gather;
pub use input::Input;
pub use limited::{read_bytes, within_limit};
pub use observer::{NoObserver, Observer};
pub use pd_events::{StreamFault, StreamKind};
pub use read_fault::ReadFault;
pub use readers::read_stream;
pub use session_streams::{read_streams, read_streams_watched};
pub use streams::{Core, order_doesnt_matter};
pub use traces::{session, session_within};
pub use watching::gather_watched;
pub use whole_bytes::WholeBytes;
