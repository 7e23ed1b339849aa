//! The values of a session's variables before any event.
ghost use Rattle.def_format.specs.Names.{ProcessNames};
ghost use Rattle.def_model.specs.Predicates.{Initial};
ghost use Rattle.read_traces.specs.InitialRows.{AreInitialRows};
ghost use Rattle.std.specs.Prelude.{◌≡◌, List, map};

/// A session: its processes, and the values of their variables before any event.
pub trait InitialValues {
    /// The processes with their variables.
    ghost names: { Self → List ProcessNames };

    /// The initial values of each process's variables.
    ghost initial: { Self → Initial };

    /// The initial values of each process's variables, in the order of the processes.
    fn initial_rows(&self) -> &[Vec<i64>]
        ensures rows { map (λ row. row.items) result.now ≡ initial self.now }
        ensures fit { AreInitialRows (names self.now) (initial self.now) };
}
