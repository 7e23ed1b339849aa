//! Explains what an answer leaves unknown.
ghost use Rattle.app_explain.specs.Answers.{is_definitely_unknown, is_possibly_unknown, is_too_wide, is_unknown};
ghost use Rattle.std.specs.List.{list_any};
ghost use Rattle.std.specs.Prelude.{◌≡◌, false};

use app_text::Text;
use pd_report::{Answer, Definitely, Possibly};

/// A whole level, and how many cuts it has.
#[derive(Clone, Copy)]
pub struct Widest {
    /// Its number.
    pub number: u64,
    /// How many cuts it has; 0 if that isn't known.
    pub cuts: u64,
}

impl Widest {
    /// Of which nothing is known.
    pub fn unknown() -> Widest {
        Widest { number: 0, cuts: 0 }
    }
}

/// With what a session was judged.
#[derive(Clone, Copy)]
pub struct Judged {
    /// How many cuts a level may have, if that is known.
    pub width: Option<u64>,
    /// Whether options can be given, as they can't with a bundle.
    pub takes_options: bool,
    /// Whether predicates were to be answered beyond the width, where they are decided without levels.
    pub beyond_width: bool,
    /// The level with the most cuts to which the walk has come.
    pub widest: Widest,
}

impl Judged {
    ghost use Rattle.app_explain.specs.Answers.{known_cuts};
    ghost use Rattle.std.specs.Prelude.{◌≡◌};

    /// How many cuts this level has, if that is known and they are more than the width.
    fn cuts_of(&self, level: u64) -> Option<u64>
        ensures { result ≡ known_cuts self.now level }
    {
        let Widest { number, cuts } = self.widest;
        if number == level && cuts > self.width.unwrap_or(0) && cuts < u64::MAX {
            return Some(cuts);
        }
        None
    }
}

/// Says how many states the level has on which an answer stays unknown.
fn say_cuts(out: &mut Text, level: u64, judged: Judged) {
    match (judged.cuts_of(level), judged.width) {
        (Some(cuts), Some(width)) => {
            out.say(" in all, has ");
            out.say_number(cuts);
            out.say(", and the width is ");
            out.say_number(width);
            out.say(".\n");
        }
        (Some(cuts), None) => {
            out.say(" in all, has ");
            out.say_number(cuts);
            out.say(", more than the width allows.\n");
        }
        (None, Some(width)) => {
            out.say(" in all, has more than ");
            out.say_number(width);
            out.say(", the width.\n");
        }
        (None, None) => out.say(" in all, has more of them than the width allows.\n"),
    }
}

/// Says of a question about a predicate at which level it stays unknown.
fn say_unknown(out: &mut Text, name: &str, question: &str, level: u64, judged: Judged) {
    out.say("It is unknown whether ");
    out.say_name(name);
    out.say(question);
    out.say_number(level);
    out.say(", of the states after ");
    out.say_number(level);
    out.say(if level == 1 { " event" } else { " events" });
    say_cuts(out, level, judged);
}

/// Says of a predicate that it is unknown whether it possibly holds, if so, and whether it is.
fn say_possibly(out: &mut Text, answer: &Answer, judged: Judged) -> bool
    ensures said { result ≡ is_possibly_unknown answer.now.possibly }
    ensures quiet { result ≡ false → out.new ≡ out.old }
{
    match &answer.possibly {
        Possibly::Unknown(level) => {
            say_unknown(out, &answer.name, " possibly holds: level ", *level, judged);
            true
        }
        Possibly::Yes(_) | Possibly::No => false,
    }
}

/// Says of a predicate that it is unknown whether it definitely holds, if so, and whether it is.
fn say_definitely(out: &mut Text, answer: &Answer, judged: Judged) -> bool
    ensures said { result ≡ is_definitely_unknown answer.now.definitely }
    ensures quiet { result ≡ false → out.new ≡ out.old }
{
    match &answer.definitely {
        Definitely::Unknown(level) => {
            say_unknown(
                out,
                &answer.name,
                " definitely holds: level ",
                *level,
                judged,
            );
            true
        }
        Definitely::Yes(_) | Definitely::No(_) => false,
    }
}

/// Says what is unknown of one predicate, and whether something is.
fn say_answer(out: &mut Text, answer: &Answer, judged: Judged) -> bool
    ensures said { result ≡ is_unknown answer.now }
    ensures quiet { result ≡ false → out.new ≡ out.old }
{
    let possibly = say_possibly(out, answer, judged);
    let definitely = say_definitely(out, answer, judged);
    possibly || definitely
}

/// Whether no width is great enough for a level with this many cuts.
fn is_too_wide(cuts: u64) -> bool
    ensures { result ≡ is_too_wide cuts }
{
    cuts > def_format::WIDTH_LIMIT
}

/// Says that a greater width might decide answers that are unknown, unless the widest level is too wide for any.
fn say_width(out: &mut Text, judged: Judged) {
    if is_too_wide(judged.widest.cuts) {
        return;
    }
    match judged.width {
        Some(def_format::WIDTH_LIMIT) => (),
        Some(_) if judged.takes_options => {
            out.say("ask for a greater width, up to --width 65536; or ");
        }
        _ => out.say("give the document a greater width, up to \"width\":65536; or "),
    }
}

/// Says what would decide answers that are unknown.
fn say_ways(out: &mut Text, judged: Judged) {
    out.say("What to do: ");
    say_width(out, judged);
    out.say(
        "record fewer events that neither send nor receive and set no variable that a predicate names.\n",
    );
}

/// Explains each answer that is unknown: at which level, and which width would decide it, if one would.
pub fn explain_answers(out: &mut Text, answers: &[Answer], judged: Judged)
    ensures { list_any is_unknown answers.now ≡ false → out.new ≡ out.old }
{
    let mut is_unknown = false;
    for answer in answers {
        let said = say_answer(out, answer, judged);
        is_unknown = is_unknown || said;
    }
    if is_unknown {
        say_ways(out, judged);
    }
}
