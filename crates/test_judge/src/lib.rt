//! Tests of whole sessions that need readers, writers or observers of their own: readers that give a byte a call, wait
//! for one another and fail, writers that take little or fail, and observers that look while streams are read. `cases/`
//! has what a session, a report or a finding means.
//!
//! - `readers`: a reader that gives pieces, waits and fails
//! - `writers`: a writer that takes pieces until it is full
//! - `ends`: calls of the engine, and in which word each ends
//! - `sessions`: a session of two processes, and whose streams are read
//! - `bundles`: bundles from a slow reader that fails, to a writer that is full
//! - `streams`: streams whose readers wait for one another or fail
//! - `turns`: streams that take turns, or come in two pieces
//! - `watched`: sessions that an observer watches
//! - `checks`: checks whose streams can't be read, and whose findings can't be written
//! - `snapshots`: snapshots, and their writing in parts
//! - `limits`: reads up to a limit
//! - `text_writers`: a writer that takes little at once, and then fails or takes nothing
#![tactic(auto)]

#[cfg(test)]
mod bundles;
#[cfg(test)]
mod checks;
#[cfg(test)]
mod ends;
#[cfg(test)]
mod limits;
#[cfg(test)]
mod readers;
#[cfg(test)]
mod sessions;
#[cfg(test)]
mod snapshots;
#[cfg(test)]
mod streams;
#[cfg(test)]
mod text_writers;
#[cfg(test)]
mod turns;
#[cfg(test)]
mod watched;
#[cfg(test)]
mod writers;
