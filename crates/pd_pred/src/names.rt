//! The processes of a session and their variables.
ghost use Rattle.def_format.specs.Names.{process_named, var_named, vars_of, ProcessNames as Entry};
ghost use Rattle.def_format.specs.Names.{AreDistinct};
ghost use Rattle.pd_pred.specs.Names.{entries_view};
ghost use Rattle.std.specs.Prelude.{◌≡◌, ◌<◌, List, length, map, string_bytes, slice_get, position, IfSome};
ghost use Rattle.std.specs.Str.{bytes_eq};

use std::marker::Model;

/// A process with its variables, in byte order of their names.
#[derive(Drop)]
pub struct ProcessNames {
    /// The process's name.
    pub name: String,
    /// The variables' names.
    pub vars: Vec<String>,
}

/// The names of a session: its processes in order, each with its variables in order.
#[derive(Drop)]
pub struct Names {
    processes: Vec<ProcessNames>,
}

impl Model for Names {
    ghost use Rattle.std.specs.Prelude.{List};
    ghost use Rattle.def_format.specs.Names.{ProcessNames as Entry};

    ghost Value = { List Entry };

    ghost use Rattle.def_format.specs.Names.{AreDistinct};
    ghost use Rattle.pd_pred.specs.Names.{entries_view};

    ghost view = { λ n. entries_view n.processes.items };

    ghost invariant = { λ n. AreDistinct (entries_view n.processes.items) };
}

fn process_at(processes: &[ProcessNames], name: &str) -> Option<usize>
    ensures { result ≡ position (λ process. bytes_eq (string_bytes process.name) name.now) processes.now }
{
    processes
        .iter()
        .position(|process| process.name.as_str() == name)
}

fn text_at(texts: &[String], name: &str) -> Option<usize>
    ensures { result ≡ position (λ text. bytes_eq (string_bytes text) name.now) texts.now }
{
    texts.iter().position(|text| text.as_str() == name)
}

impl Names {
    /// The names of these processes. The processes' names differ, and so do the variables' of each process.
    pub fn new(processes: Vec<ProcessNames>) -> Names
        requires { AreDistinct (entries_view processes.items) }
        ensures { result ≡ entries_view processes.items }
    {
        Names { processes }
    }

    /// What holds of all names: no two processes have one name, and no two variables of a process. It has no code: a
    /// caller's proof has the fact by calling it.
    pub fn differ(&self)
        ensures { AreDistinct self.now }
    {
        let _processes = &self.processes;
    }

    /// The number of the process of this name, from 0.
    pub fn find(&self, name: &str) -> Option<usize>
        ensures { result ≡ process_named self.now name.now }
    {
        process_at(&self.processes, name)
    }

    /// The number of this process's variable of this name, from 0.
    pub fn find_var(&self, process: usize, name: &str) -> Option<usize>
        requires { process < length self.now }
        ensures { result ≡ var_named self.now process name.now }
    {
        text_at(self.vars(process), name)
    }

    /// How many processes there are.
    pub fn processes(&self) -> usize
        ensures { result ≡ length self.now }
    {
        self.processes.len()
    }

    /// The name of process `p`, which is counted from 0.
    pub fn name(&self, p: usize) -> &str
        requires { p < length self.now }
        ensures { IfSome (slice_get self.now p) (λ entry. result.now ≡ entry.name) }
    {
        self.processes[p].name.as_str()
    }

    /// The variables of process `p`, which is counted from 0.
    pub fn vars(&self, p: usize) -> &[String]
        requires { p < length self.now }
        ensures { map string_bytes result.now ≡ vars_of self.now p }
    {
        self.processes[p].vars.as_slice()
    }
}
