//! Which runs of a level are skipped.
ghost use Rattle.walk_marks.specs.Skips.{HaveNoHits, IsSkipped};
ghost use Rattle.def_model.specs.Events.{Computation};
ghost use Rattle.walk_runs.specs.WholeLevels.{Run};
ghost use Rattle.std.specs.Prelude.{◌≡◌, ◌<◌, ◌↔◌, ℕ, [], Bool, IsTrue, List};

use walk_keys::bits::has;

/// Which runs of a level are skipped: those whose word has the bit. Runs beyond the last word aren't.
#[derive(Clone, Copy)]
pub struct Skips<'a> {
    words: &'a [u16],
    bit: u64,
    all: bool,
}

impl<'a> Skips<'a> {
    /// The runs whose word has this bit, from 0, and whether it is known that these are all runs.
    pub fn new(words: &'a [u16], bit: u64, all: bool) -> Skips<'a>
        ensures words { result.words.now ≡ words.now }
        ensures bit { result.bit ≡ bit }
        ensures all { result.all ≡ all }
    {
        Skips { words, bit, all }
    }

    /// No run.
    pub fn none() -> Skips<'a>
        ensures { (c : Computation) (test : List ℕ → Bool) (runs : List Run) → HaveNoHits c test runs result }
    {
        Skips {
            words: &[],
            bit: 0,
            all: false,
        }
    }

    /// Whether it is known that each run is skipped.
    pub fn are_all(&self) -> bool
        ensures { result ≡ self.now.all }
    {
        self.all
    }

    /// Whether the run at this place is skipped.
    pub fn has(&self, i: usize) -> bool
        requires { self.now.bit < 64 }
        ensures { IsTrue result ↔ IsSkipped self.now i }
    {
        if i >= self.words.len() {
            return false;
        }
        has(u64::from(self.words[i]), self.bit)
    }
}
