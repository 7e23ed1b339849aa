//! What a check finds, as a JSON text.
ghost use Rattle.judge_check.specs.Views.{finding_view};
ghost use Rattle.judge_findings.specs.JsonFindings.{finding_data, finding_json};
ghost use Rattle.serde_json.specs.View.{view};
ghost use Rattle.std.specs.Prelude.{◌≡◌, IfOk};

use super::verdicts::{checked_values, test_word};
use judge_check::Finding;
use serde_json::{Value, json};
use std::alloc::{AllocError, Global};

/// The version of this format.
const FORMAT: u64 = 1;

/// What a check finds, as a JSON value.
fn finding_value(alloc: Global, finding: &Finding) -> Result<Value, AllocError>
    ensures { IfOk result (λ value. view value ≡ finding_data (finding_view finding.now)) }
{
    let good = finding.is_clean();
    match finding {
        Finding::NotRead(line) => {
            json!(in alloc; {"format": FORMAT, "outcome": "unread", "good": good, "line": *line})
        }
        Finding::OfRefusal(_) =>
            json!(in alloc; {"format": FORMAT, "outcome": "refused", "good": good}),
        Finding::OfSession(counts, answers) => {
            let session = test_word(*counts);
            match answers {
                Some(answers) => {
                    let answers = checked_values(alloc, answers)?;
                    json!(in alloc; {
                        "format": FORMAT,
                        "outcome": "judged",
                        "good": good,
                        "session": session,
                        "predicates": answers
                    })
                }
                None => json!(in alloc; {
                    "format": FORMAT,
                    "outcome": "judged",
                    "good": good,
                    "session": session,
                    "names": "bad"
                }),
            }
        }
    }
}

/// What a check finds, as a JSON text: one object without spaces, in one line that is ended by an LF.
///
/// # Errors
/// Out of memory.
pub fn finding_json(alloc: Global, finding: &Finding) -> Result<Vec<u8>, AllocError>
    ensures { IfOk result (λ text. text.items ≡ finding_json (finding_view finding.now)) }
{
    let value = finding_value(alloc, finding)?;
    let mut text = value.to_vec(alloc)?;
    text.push(b'\n')?;
    Ok(text)
}
