//! Judges a session whose streams come by connections, and keeps it, if that is asked for.
//!
//! - `server`: judges a session whose streams come by connections
//! - `served`: judges the streams, and writes the report in the format that is asked for
//! - `arrivals`: accepts the connections that are streams
//! - `strangers`: tells of those that are closed before they are streams
//! - `host`: what a server works with
//! - `service_fault`: why a server gives no report
//! - `service_status`: the exit status of a server's run
//! - `service_notices`: tells at once what becomes of a server's session
//! - `place_names`: what the places of a server are called to whoever runs it
//! - `port_file`: writes the ports of a server into a file
//! - `watchers`: shows watchers how far the streams are read
//! - `kept_session`: keeps the session of a server as files of a folder
//! - `senders`: who sent the streams of a server
//! - `peer`: what is known of who sends one stream
//! - `peers`: of each stream
//! - `start_recorder`: records how a stream begins
//! - `kept_stream`: a stream that is kept while it is read
//! - `keeping`: keeps a stream in a file
//! - `notices`: what is told at once of the streams
//! - `recording_source`: records a stream, and keeps it, while it is read
#![tactic(auto)]

mod arrivals;
mod host;
mod keeping;
mod kept_session;
mod kept_stream;
mod notices;
mod peer;
mod peers;
mod place_names;
mod port_file;
mod recording_source;
mod senders;
mod served;
mod server;
mod service_fault;
mod service_notices;
mod service_status;
mod start_recorder;
mod strangers;
mod watchers;

pub use host::Host;
pub use peers::Peers;
pub use place_names::{PlaceName, streams_name, watchers_name};
pub use senders::{KnownSender, known_senders, senders_of};
pub use server::serve;
pub use service_fault::ServiceFault;
pub use service_status::report_service_end;
pub use strangers::{explain_unread_token, say_idle, say_strangers};
