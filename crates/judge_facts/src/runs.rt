//! Events of one process that come one after another in an observation.
ghost use Rattle.judge_facts.specs.Runs.{first_run};
ghost use Rattle.std.specs.Prelude.{◌≡◌, nat_eq, not, position};

/// Where the first of these steps stands that isn't this one.
fn first_other(steps: &[usize], step: usize) -> Option<usize>
    ensures { result ≡ position (λ next. not (nat_eq next step)) steps.now }
{
    steps.iter().position(|next| *next != step)
}

/// How many of the first steps are equal to each other.
pub fn first_run(steps: &[usize]) -> usize
    ensures { result ≡ first_run steps.now }
{
    match steps.split_first() {
        Some((step, rest)) => match first_other(rest, *step) {
            Some(others) => others.saturating_add(1),
            None => steps.len(),
        },
        None => 0,
    }
}
