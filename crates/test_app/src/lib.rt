//! Tests of runs of the program over files, a network and outputs that are made up, as the built program meets none:
//! what files and real connections show stands in the folder `cases`.
//!
//! - `small`: the files of a small session, and what the program makes of them
//! - `sinks`: outputs that take little, or fail
//! - `networks`: a network that is made up
//! - `runs`: runs of the program on these
//! - `outputs`: outputs and errors that take a byte a call, have no more room, or can't be flushed
//! - `servers`: streams and watchers that can't be accepted, and sessions that are kept
//! - `arguments`: arguments that can't be had
#![tactic(auto)]

#[cfg(test)]
mod arguments;
#[cfg(test)]
mod networks;
#[cfg(test)]
mod outputs;
#[cfg(test)]
mod runs;
#[cfg(test)]
mod servers;
#[cfg(test)]
mod sinks;
#[cfg(test)]
mod small;
