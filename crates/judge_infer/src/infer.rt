//! The streams that were read, and their document.
ghost use Rattle.judge_infer.specs.DocumentParts.{again_after, document_of, names_of};
ghost use Rattle.judge_infer.specs.Inferred.{stream_process};
ghost use Rattle.judge_infer.specs.Streams.{Process as StreamProcess};
ghost use Rattle.judge_infer.specs.Views.{IsDocumentDue, add_fault_view, process_view};
ghost use Rattle.std.specs.Prelude.{◌≡◌, ◌++◌, ◌∷◌, [], Err, IfErr, IfSome, MatchOption, Ok, OnErr, OnOk, Some, map, option_map, position, string_bytes, take, ⊤};
ghost use Rattle.std.specs.Str.{bytes_eq};

use super::process::{Process, read_process};
use super::text::first_document;
use super::{AddFault, DocumentFault};
use def_format::PROCESS_LIMIT;
use std::alloc::Global;
use std::marker::Model;

/// Streams that were read, of which a first document is made.
#[derive(Drop)]
pub struct Session {
    alloc: Global,
    processes: Vec<Process>,
}

impl Model for Session {
    ghost use Rattle.std.specs.Prelude.{List, map};
    ghost use Rattle.judge_infer.specs.Streams.{Process as StreamProcess};

    ghost Value = { List StreamProcess };

    ghost use Rattle.judge_infer.specs.Views.{process_view};

    ghost view = { λ s. map process_view s.processes.items };
}

fn process_at(processes: &[Process], name: &str) -> Option<usize>
    ensures { result ≡ position (λ process. bytes_eq (string_bytes process.name) name.now) processes.now }
{
    processes
        .iter()
        .position(|process| process.name.as_str() == name)
}

/// The place of the process of this name, counted from 0.
fn place_of(processes: &[Process], name: &str) -> Option<usize>
    ensures { result ≡ position (λ other. bytes_eq other name.now) (names_of (map process_view processes.now)) }
{
    process_at(processes, name)
}

/// The first process whose name an earlier one has too, by the place of that one and its own.
fn same_process(processes: &[Process]) -> Option<(usize, usize)>
    ensures { result ≡ again_after [] (names_of (map process_view processes.now)) }
{
    for i in 0..processes.len() {
        let (before, _) = processes.split_at(i);
        if let Some(first) = place_of(before, processes[i].name.as_str()) {
            return Some((first, i));
        }
    }
    None
}

impl Session {
    /// Of no stream. It takes no memory.
    pub fn new(alloc: Global) -> Session
        ensures { result ≡ [] }
    {
        Session {
            alloc,
            processes: Vec::new(alloc),
        }
    }

    /// Adds the next stream, of which these are all bytes. It may have no end line, and its last line may be cut short.
    /// It takes time and memory in proportion to the bytes.
    ///
    /// # Errors
    /// The first fault of the stream, or out of memory. The session stays as it was.
    pub fn add(&mut self, bytes: &[u8]) -> Result<(), AddFault>
        ensures process { OnOk result ((process : StreamProcess) × (stream_process bytes.now ≡ Ok process)
            × (self.new ≡ self.old ++ process ∷ [])) }
        ensures fault { IfErr result (λ fault. MatchOption (add_fault_view fault) ⊤
            (λ f. stream_process bytes.now ≡ Err f)) }
        ensures stays { OnErr result (self.new ≡ self.old) }
    {
        let process = read_process(self.alloc, bytes)?;
        self.processes.push(process)?;
        Ok(())
    }

    /// The text of the first document of the streams.
    ///
    /// # Errors
    /// Why they have none, or out of memory.
    pub fn document(&self) -> Result<Vec<u8>, DocumentFault>
        ensures { IsDocumentDue (document_of self.now) result }
    {
        if let Some((first, second)) = same_process(&self.processes) {
            return Err(DocumentFault::SameProcess(first, second));
        }
        if self.processes.is_empty() {
            return Err(DocumentFault::NoStream);
        }
        if self.processes.len() > PROCESS_LIMIT {
            return Err(DocumentFault::TooMany);
        }
        Ok(first_document(self.alloc, &self.processes)?)
    }
}
