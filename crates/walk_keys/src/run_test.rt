//! A test on cuts that answers for neighboring cuts of a run at once.
ghost use Rattle.walk_keys.specs.Words.{has_bit};
ghost use Rattle.def_model.specs.Cuts.{FitsProcesses};
ghost use Rattle.def_model.specs.Events.{Computation};
ghost use Rattle.walk_keys.specs.Neighbors.{cut_at};
ghost use Rattle.std.specs.Prelude.{◌≡◌, ◌+◌, ◌-◌, ◌<◌, ◌≤◌, ℕ, Bool, List, false};

/// A test on the cuts of a computation.
pub trait RunTest {
    /// The events of the computation.
    ghost events: { Self → Computation };

    /// Whether a cut passes.
    ghost test: { Self → List ℕ → Bool };

    /// Which of `n` neighboring cuts of a run pass, from 1 to 64 of them: bit `j` is that of the cut whose last two
    /// counts are `x + j` and `y - j`. It takes no memory.
    fn mask(&self, prefix: &[u64], x: u64, y: u64, n: u64) -> u64
        requires some { 1 ≤ n }
        requires few { n ≤ 64 }
        requires down { n ≤ y + 1 }
        requires fits { (j : ℕ) → j < n → FitsProcesses (events self.now) (cut_at prefix.now (x + j) (y - j)) }
        ensures within { (j : ℕ) → j < n → has_bit result j ≡ test self.now (cut_at prefix.now (x + j) (y - j)) }
        ensures beyond { (j : ℕ) → n ≤ j → has_bit result j ≡ false };
}
