// The targets of a relation.
ghost use Rattle.std.specs.Prelude.{◌≡◌, IfOk};
ghost use Rattle.std.specs.List.{list_any};
ghost use Rattle.std.specs.Str.{str_eq_ignore_ascii_case};
ghost use Rattle.ws_linkhdr.specs.Words.{has_relation, has_word, targets_of, words};

use crate::characters::is_same_word;
use crate::item::LinkItem;
use std::alloc::Global;
use ws_model::{Bytes, NoMemory};

// Whether a text stands between two spaces of the value.
fn is_among(text: &[u8], value: &[u8]) -> bool
    ensures { result ≡ list_any (λ word. str_eq_ignore_ascii_case word text.now) (words value.now) }
{
    value
        .split(|b| *b == b' ')
        .any(|word| is_same_word(word, text))
}

fn has_word(rel: &[u8], value: &[u8]) -> bool
    ensures { result ≡ has_word rel.now value.now }
{
    !rel.is_empty() && is_among(rel, value)
}

fn has_relation(rel: &[u8], item: &LinkItem) -> bool
    ensures { result ≡ has_relation rel.now item.now }
{
    !item.anchored && has_word(rel, item.rel.as_slice())
}

/// The targets of the links with this relation, in order (RFC 8288, section 3.3).
///
/// Those are the links that aren't anchored, and whose first `rel` has that word, compared without
/// case. The empty text is no word.
pub fn rel_targets(alloc: Global, items: &[LinkItem], rel: &[u8]) -> Result<Vec<Bytes>, NoMemory>
    ensures { IfOk result (λ v. v.items ≡ targets_of rel.now items.now) }
{
    let mut targets = Vec::new(alloc);
    for item in items {
        if has_relation(rel, item) {
            targets.push(Bytes::copy(alloc, item.target.as_slice())?)?;
        }
    }
    Ok(targets)
}
