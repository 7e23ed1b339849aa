//! Where the values of variables come from.
ghost use Rattle.std.specs.Prelude.{◌≡◌, ℕ, ℤ};

/// A state: the value of each variable.
pub trait Values {
    /// The value by the numbers of process and variable, both from 0.
    ghost state: { Self → ℕ → ℕ → ℤ };

    /// The value of variable `var` of process `process`, both counted from 0.
    fn value(&self, process: usize, var: usize) -> i64
        ensures { result ≡ state self.now process var };
}
