// Writing a Link field.
ghost use Rattle.std.specs.Prelude.{◌≡◌, ◌++◌, map, IfOk, OnOk};
ghost use Rattle.ws_linkhdr.specs.Grammar.{LinkField};
ghost use Rattle.ws_linkhdr.specs.Text.{AreWritable, item_of_pair, link_text, links_text, more_text};

use std::alloc::Global;
use ws_model::{Bytes, NoMemory, Pair};

// Adds one link at the end.
#[tactic(auto, unfolding(crate::specs::Text::link_text))]
fn push_link(text: &mut Vec<u8>, link: &Pair) -> Result<(), NoMemory>
    ensures { OnOk result (text.new.items ≡ text.old.items ++ link_text link.now) }
{
    text.push(b'<')?;
    text.extend_from_slice(link.name.as_slice())?;
    text.extend_from_slice(b">; rel=\"")?;
    text.extend_from_slice(link.value.as_slice())?;
    text.push(b'"')?;
    Ok(())
}

// Adds further links at the end.
fn push_more(text: &mut Vec<u8>, links: &[Pair]) -> Result<(), NoMemory>
    ensures { OnOk result (text.new.items ≡ text.old.items ++ more_text links.now) }
{
    for link in links {
        text.extend_from_slice(b", ")?;
        push_link(text, link)?;
    }
    Ok(())
}

#[tactic(auto, unfolding(crate::specs::Text::links_text))]
fn text_of(alloc: Global, links: &[Pair]) -> Result<Bytes, NoMemory>
    ensures { IfOk result (λ b. b ≡ links_text links.now) }
{
    let mut text = Vec::new(alloc);
    if let [first, others @ ..] = links {
        push_link(&mut text, first)?;
        push_more(&mut text, others)?;
    }
    Ok(Bytes::from_vec(text))
}

/// The text of a Link field that says these links (RFC 8288, section 3): of each pair the name is
/// the target, and the value is its one relation, in quotes.
///
/// The text is in the grammar where no target has a `>` or a control byte, and each relation is
/// letters.
pub fn write_links(alloc: Global, items: &[Pair]) -> Result<Bytes, NoMemory>
    ensures text { IfOk result (λ b. b ≡ links_text items.now) }
    // Where the targets and the relations can be written so, the text reads back as its items.
    ensures reads_back { AreWritable items.now → IfOk result (λ b. LinkField b (map item_of_pair items.now)) }
{
    text_of(alloc, items)
}
