//! Whether the arguments ask for explanations.
ghost use Rattle.pd_cli.specs.Explained.{is_explain_word};
ghost use Rattle.std.specs.List.{list_any};
ghost use Rattle.std.specs.Prelude.{◌≡◌, filter, not};

/// The word that asks for explanations.
const EXPLAIN: &str = "--explain";

/// Whether an argument is the word that asks for explanations.
fn is_explain_word(argument: &String) -> bool
    ensures { result ≡ is_explain_word argument.now }
{
    argument.as_str() == EXPLAIN
}

/// Whether the word that asks for explanations stands among the arguments.
fn asks_to_explain(arguments: &[String]) -> bool
    ensures { result ≡ list_any is_explain_word arguments.now }
{
    arguments.iter().any(|argument| is_explain_word(argument))
}

/// The arguments without the word that asks for explanations, wherever it stands, and whether it stood there.
pub fn without_explain(arguments: Vec<String>) -> (Vec<String>, bool)
    ensures others { result.0.items ≡ filter (λ argument. not (is_explain_word argument)) arguments.items }
    ensures asked { result.1 ≡ list_any is_explain_word arguments.items }
{
    let asked = asks_to_explain(&arguments);
    let mut others = arguments;
    others.retain(|argument| !is_explain_word(argument));
    (others, asked)
}
