//! What a predicate's variables are worth.
ghost use Rattle.judge_draw.specs.Values.{item_at, items_text, joined, shown_value, value_texts};
ghost use Rattle.out_picture.specs.Pictures.{texts_view};
ghost use Rattle.pd_pred.specs.Trees.{tree_view};
ghost use Rattle.std.specs.Prelude.{◌≡◌, ◌<◌, IfOk, OnOk, length, map, string_bytes};

use judge_facts::names_variable;
use pd_pred::{Names, Tree, Values};
use std::alloc::{AllocError, Global};

/// Appends what a variable of this name is worth, after a comma if something stands before it.
fn push_item(alloc: Global, text: &mut String, name: &str, value: i64) -> Result<(), AllocError>
    ensures { OnOk result (string_bytes text.new ≡ joined (string_bytes text.old) (shown_value name.now value)) }
{
    if !text.is_empty() {
        text.push_str(", ")?;
    }
    let digits = format!(in alloc; "{value}")?;
    text.push_str(name)?;
    text.push_str(" = ")?;
    text.push_str(&digits)
}

/// What the variables of a process that a predicate names are worth.
fn process_values<V: Values>(
    alloc: Global,
    vars: &[String],
    tree: &Tree,
    values: &V,
    process: usize,
) -> Result<String, AllocError>
    ensures { IfOk result (λ text. string_bytes text ≡ items_text
        (item_at (map string_bytes vars.now) (V.state values.now) (tree_view tree.now) process) (length vars.now)) }
{
    let mut text = String::new(alloc);
    for v in 0..vars.len() {
        if names_variable(tree, process, v) {
            push_item(alloc, &mut text, &vars[v], values.value(process, v))?;
        }
    }
    Ok(text)
}

/// What the variables of each process that a predicate names are worth.
///
/// # Errors
/// Out of memory.
pub(crate) fn value_texts<V: Values>(
    alloc: Global,
    names: &Names,
    tree: &Tree,
    values: &V,
) -> Result<Vec<String>, AllocError>
    ensures { IfOk result (λ texts. texts_view texts.items ≡ value_texts names.now (V.state values.now)
        (tree_view tree.now)) }
{
    let mut texts = Vec::new(alloc);
    for p in 0..names.processes() {
        texts.push(process_values(alloc, names.vars(p), tree, values, p)?)?;
    }
    Ok(texts)
}
