//! The names of the processes of an observation's events, each kept once.
ghost use Rattle.def_format.specs.Limits.{process_limit};
ghost use Rattle.def_format.specs.Reports.{IsName};
ghost use Rattle.pd_report.specs.Steps.{name_at, names_at, names_view, AreBelow, GoesOn};
ghost use Rattle.std.specs.Prelude.{◌≡◌, ◌<◌, ◌∷◌, ◌++◌, [], None, length, position, string_bytes, take, IfOk, OnOk};
ghost use Rattle.std.specs.Str.{bytes_eq};

use super::words::word_text;
use def_format::PROCESS_LIMIT;
use std::alloc::{AllocError, Global};
use std::marker::Model;

/// The names of the processes of an observation's events, in order. A name is kept once, and of each event which name
/// it has.
#[derive(Debug, Drop)]
pub struct Path {
    /// The names.
    names: Vec<String>,
    /// The place of each event's name among them.
    steps: Vec<usize>,
}

impl Model for Path {
    ghost use Rattle.pd_report.specs.Steps.{names_at, names_view, AreBelow};
    ghost use Rattle.std.specs.Prelude.{ℕ, List, length};

    ghost Value = { List (List ℕ) };

    ghost view = { λ path. names_at (names_view path.names.items) path.steps.items };

    ghost invariant = { λ path. AreBelow (length path.names.items) path.steps.items };
}

/// The names among which another is looked for. A session has no more processes; a text may have any number of names,
/// and is read in a time that grows with its length alone.
fn first_names(names: &[String]) -> &[String]
    ensures { result.now ≡ take process_limit names.now }
{
    &names[..names.len().min(PROCESS_LIMIT)]
}

/// The place of a name among the first of these.
fn known_place(names: &[String], name: &[u8]) -> Option<usize>
    ensures { result ≡ position (λ known. bytes_eq (string_bytes known) name.now) (take process_limit names.now) }
{
    first_names(names)
        .iter()
        .position(|known| known.as_bytes() == name)
}

/// The place of a name among these, after which it is put if it isn't known.
fn place_of(alloc: Global, names: &mut Vec<String>, name: &[u8]) -> Result<usize, AllocError>
    requires { IsName name.now }
    ensures more { GoesOn names.old.items names.new.items }
    ensures once { ¬ (position (λ known. bytes_eq (string_bytes known) name.now)
        (take process_limit names.old.items) ≡ None) → names.new.items ≡ names.old.items }
    ensures place { IfOk result (λ step. (step < length names.new.items)
        × (name_at (names_view names.new.items) step ≡ name.now)) }
{
    if let Some(step) = known_place(names, name) {
        return Ok(step);
    }
    let text = word_text(alloc, name)?;
    names.push(text)?;
    Ok(names.len() - 1)
}

impl Path {
    /// The path whose events have these of the names, each by its place among them, which is counted from 0.
    pub fn new(names: Vec<String>, steps: Vec<usize>) -> Path
        requires { AreBelow (length names.items) steps.items }
        ensures { result ≡ names_at (names_view names.items) steps.items }
    {
        Path { names, steps }
    }

    /// The path of no event.
    pub(crate) fn empty(alloc: Global) -> Path
        ensures { result ≡ [] }
    {
        Path {
            names: Vec::new(alloc),
            steps: Vec::new(alloc),
        }
    }

    /// Names, and for each event the place of its own among them.
    pub fn parts(&self) -> (&[String], &[usize])
        ensures names { self.now ≡ names_at (names_view result.0.now) result.1.now }
        ensures places { AreBelow (length result.0.now) result.1.now }
    {
        (self.names.as_slice(), self.steps.as_slice())
    }

    /// Puts an event of the process of this name after the others.
    pub(crate) fn push(&mut self, alloc: Global, name: &[u8]) -> Result<(), AllocError>
        requires { IsName name.now }
        ensures { OnOk result (self.new ≡ self.old ++ name.now ∷ []) }
    {
        let step = place_of(alloc, &mut self.names, name)?;
        self.steps.push(step)?;
        Ok(())
    }
}
