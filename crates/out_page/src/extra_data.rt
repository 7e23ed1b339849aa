//! What is wished of predicates, notes, and the pattern of links.
ghost use Rattle.out_page.specs.ExtraData.{link_text, predicate_number, wish_text};
ghost use Rattle.out_page.specs.Written.{extras_text};
ghost use Rattle.out_page.specs.JsonTexts.{listed, quoted};
ghost use Rattle.out_page.specs.Views.{extras_view, kind_word, link_view, wish_view};
ghost use Rattle.pd_spec.specs.Named.{named_view};
ghost use Rattle.pd_spec.specs.Views.{document_view};
ghost use Rattle.std.specs.Prelude.{◌≡◌, ◌++◌, map, position, string_bytes, OnOk};
ghost use Rattle.std.specs.Str.{bytes_eq};

use super::json_texts::{push_index, push_names, push_quoted};
use super::{Extras, Wish, WishKind};
use pd_report::push_bytes;
use pd_spec::{NamedPred, Spec};
use std::alloc::AllocError;

/// The word for a kind of wish, as a text of JSON.
fn kind_text(kind: WishKind) -> &'static [u8]
    ensures { result.now ≡ quoted (kind_word kind) }
{
    match kind {
        WishKind::Never => b"\"never\"",
        WishKind::Always => b"\"always\"",
        WishKind::Sometimes => b"\"sometimes\"",
    }
}

/// The place of the first predicate of this name.
fn place_of(predicates: &[NamedPred], name: &str) -> Option<usize>
    ensures { result ≡ position (λ predicate. bytes_eq (string_bytes predicate.name) name.now) predicates.now }
{
    predicates
        .iter()
        .position(|predicate| predicate.name.as_str() == name)
}

/// The number of the first predicate of this name, from 0.
fn predicate_number(predicates: &[NamedPred], name: &str) -> usize
    ensures { result ≡ predicate_number (map named_view predicates.now) name.now }
{
    place_of(predicates, name).unwrap_or(0)
}

/// Appends a wish for one of these predicates.
fn push_wish(out: &mut Vec<u8>, predicates: &[NamedPred], wish: Wish<'_>) -> Result<(), AllocError>
    ensures { OnOk result (out.new.items ≡ out.old.items
        ++ wish_text (map named_view predicates.now) (wish_view wish.entry)) }
{
    push_bytes(out, b"[")?;
    push_bytes(out, kind_text(wish.kind))?;
    push_bytes(out, b",")?;
    push_index(out, predicate_number(predicates, wish.name))?;
    push_bytes(out, b"]")?;
    Ok(())
}

/// Appends wishes for these predicates with a comma between each two.
fn push_wishes(
    out: &mut Vec<u8>,
    predicates: &[NamedPred],
    wishes: &[Wish<'_>],
) -> Result<(), AllocError>
    ensures { OnOk result (out.new.items ≡ out.old.items
        ++ listed (wish_text (map named_view predicates.now)) (map wish_view wishes.now)) }
{
    let Some((first, others)) = wishes.split_first() else {
        return Ok(());
    };
    push_wish(out, predicates, *first)?;
    for wish in others {
        push_bytes(out, b",")?;
        push_wish(out, predicates, *wish)?;
    }
    Ok(())
}

/// Appends the pattern of links, if there is one.
fn push_link(out: &mut Vec<u8>, link: Option<&str>) -> Result<(), AllocError>
    ensures { OnOk result (out.new.items ≡ out.old.items ++ link_text (link_view link.entry)) }
{
    match link {
        Some(pattern) => push_quoted(out, pattern.as_bytes()),
        None => push_bytes(out, b"null"),
    }
}

/// Appends what a page has beside its session.
pub(crate) fn push_extras(
    out: &mut Vec<u8>,
    spec: &Spec,
    extras: &Extras<'_>,
) -> Result<(), AllocError>
    ensures { OnOk result (out.new.items ≡ out.old.items
        ++ extras_text (document_view spec.now) (extras_view extras.now)) }
{
    push_bytes(out, b",\n\"wishes\":[")?;
    push_wishes(out, spec.predicates(), &extras.wishes)?;
    push_bytes(out, b"],\n\"notes\":[")?;
    push_names(out, &extras.notes)?;
    push_bytes(out, b"],\n\"link\":")?;
    push_link(out, extras.link)?;
    Ok(())
}
