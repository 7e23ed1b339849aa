//! Reads the line that counts what a session has.
ghost use Rattle.def_format.specs.Reports.{Fits};
ghost use Rattle.pd_report.specs.Reading.{counts_text, counts_words, CountsFit, IsFoundAs};
ghost use Rattle.pd_report.specs.Remaining.{words_left};
ghost use Rattle.std.specs.Prelude.{◌≡◌, ◌∷◌, ℕ, List, MatchOption, decimal};

use super::remaining::Words;

/// The number that the words begin with and that this word follows, and the words after both.
fn number_before<'a>(words: Words<'a>, label: &str) -> Option<(u64, Words<'a>)>
    ensures { MatchOption result ((n : ℕ) (rest : List (List ℕ)) → Fits n
        → ¬ (words_left words.entry ≡ decimal n ∷ label.now ∷ rest))
        (λ found. Fits found.0 × (words_left words.entry ≡ decimal found.0 ∷ label.now ∷ words_left found.1)) }
{
    let Some((number, rest)) = words.leading_number() else {
        return None;
    };
    let Some(rest) = rest.after(label) else {
        return None;
    };
    Some((number, rest))
}

/// The counts of processes, events and messages.
fn session_counts(words: Words<'_>) -> Option<(u64, u64, u64)>
    ensures { IsFoundAs (λ counts. counts) counts_words CountsFit (words_left words.entry) result }
{
    let Some(rest) = words.after("session") else {
        return None;
    };
    let Some((processes, rest)) = number_before(rest, "processes") else {
        return None;
    };
    let Some((events, rest)) = number_before(rest, "events") else {
        return None;
    };
    let Some((messages, rest)) = number_before(rest, "messages") else {
        return None;
    };
    if rest.is_empty() {
        Some((processes, events, messages))
    } else {
        None
    }
}

/// The counts of processes, events and messages, if the line has them.
pub(crate) fn session_line(line: &[u8]) -> Option<(u64, u64, u64)>
    ensures { IsFoundAs (λ counts. counts) counts_text CountsFit line.now result }
{
    session_counts(Words::new(line, b' '))
}
