// What stands open after some bytes of a Link field, and what one more byte makes of it.
ghost use Rattle.std.specs.Prelude.{◌≡◌, ◌++◌, IfOk, MatchOption};
ghost use Rattle.std.specs.Option.{option_map, option_to_list};
ghost use Rattle.ws_linkhdr.specs.Machine.{Moves, after_name, before_name, before_value, between, ended, escaped, finish, in_name, in_quotes, in_target, in_word, item_of, next, separated, with_param, fresh, last};

use crate::characters::{
    is_blank, is_escaped_byte, is_quoted_byte, is_same_word, is_target_byte, is_token_byte,
    is_word_byte, no_bytes, with_byte,
};
use crate::item::LinkItem;
use std::alloc::Global;
use ws_model::{Bytes, NoMemory};

/// A link, as far as it has been read: `rel` is the value of its first `rel` so far.
#[derive(Drop)]
pub struct Draft {
    pub target: Bytes,
    pub rel: Option<Bytes>,
    pub anchored: bool,
}

impl Draft {
    fn to_target(target: Bytes) -> Draft
        ensures { result ≡ fresh target }
    {
        Draft {
            target,
            rel: None,
            anchored: false,
        }
    }

    fn with_param(self, name: Bytes, value: Bytes) -> Draft
        ensures { result ≡ with_param self name value }
    {
        let anchored = self.anchored || is_same_word(name.as_slice(), b"anchor");
        let is_rel = is_same_word(name.as_slice(), b"rel");
        let Draft { target, rel, .. } = self;
        let rel = match rel {
            Some(first) => Some(first),
            None if is_rel => Some(value),
            None => None,
        };
        Draft {
            target,
            rel,
            anchored,
        }
    }

    fn into_item(self, alloc: Global) -> LinkItem
        ensures { result ≡ item_of self }
    {
        let Draft {
            target,
            rel,
            anchored,
        } = self;
        LinkItem {
            target,
            rel: rel.unwrap_or(no_bytes(alloc)),
            anchored,
        }
    }
}

/// What stands open: a link with what has been read of its last parameter.
#[derive(Drop)]
pub enum State {
    /// No link.
    Between,
    /// A target, up to here.
    Target(Bytes),
    /// A link, behind its target or behind a value.
    Ended(Draft),
    /// A link, behind a semicolon.
    BeforeName(Draft),
    /// A parameter's name, up to here.
    Name(Draft, Bytes),
    /// A parameter's name, and blanks.
    AfterName(Draft, Bytes),
    /// A parameter's name, and its equals sign.
    BeforeValue(Draft, Bytes),
    /// A parameter's name, and its value without quotes, up to here.
    Word(Draft, Bytes, Bytes),
    /// A parameter's name, and its value in quotes, up to here.
    Quoted(Draft, Bytes, Bytes),
    /// The same, behind a backslash.
    Escaped(Draft, Bytes, Bytes),
}

impl State {
    /// The state after one more byte, or None where that byte may not stand there.
    pub fn next(
        self,
        alloc: Global,
        items: &mut Vec<LinkItem>,
        byte: u8,
    ) -> Result<Option<State>, NoMemory>
        ensures { Moves (next self items.old.items byte) items.new.items result }
    {
        match self {
            State::Between => Ok(between(alloc, byte)),
            State::Target(target) => in_target(target, byte),
            State::Ended(link) => ended(alloc, link, items, byte),
            State::BeforeName(link) => before_name(alloc, link, items, byte),
            State::Name(link, name) => in_name(alloc, link, name, items, byte),
            State::AfterName(link, name) => after_name(alloc, link, name, items, byte),
            State::BeforeValue(link, name) => before_value(alloc, link, name, byte),
            State::Word(link, name, value) => in_word(alloc, link, name, value, items, byte),
            State::Quoted(link, name, value) => in_quotes(link, name, value, byte),
            State::Escaped(link, name, value) => escaped(link, name, value, byte),
        }
    }

    /// The link that is open at the end of a field, if one is; or None where no field may end.
    fn last(self, alloc: Global) -> Option<Option<LinkItem>>
        ensures { option_map option_to_list result ≡ last self }
    {
        match self {
            State::Between => Some(None),
            State::Ended(link) | State::BeforeName(link) => Some(Some(link.into_item(alloc))),
            State::Name(link, name) | State::AfterName(link, name) => {
                Some(Some(link.with_param(name, no_bytes(alloc)).into_item(alloc)))
            }
            State::Word(link, name, value) => {
                Some(Some(link.with_param(name, value).into_item(alloc)))
            }
            _ => None,
        }
    }

    /// The items of a field that ends here, or None where no field may end.
    pub fn finish(
        self,
        alloc: Global,
        mut items: Vec<LinkItem>,
    ) -> Result<Option<Vec<LinkItem>>, NoMemory>
        ensures { IfOk result (λ found. MatchOption found (finish self items.items ≡ None) (λ v. finish self items.items ≡ Some v.items)) }
    {
        let Some(last) = self.last(alloc) else {
            return Ok(None);
        };
        if let Some(item) = last {
            items.push(item)?;
        }
        Ok(Some(items))
    }
}

fn between(alloc: Global, byte: u8) -> Option<State>
    ensures { result ≡ between byte }
{
    match byte {
        b if is_blank(b) => Some(State::Between),
        b',' => Some(State::Between),
        b'<' => Some(State::Target(no_bytes(alloc))),
        _ => None,
    }
}

fn in_target(target: Bytes, byte: u8) -> Result<Option<State>, NoMemory>
    ensures { IfOk result (λ s. in_target target byte ≡ s) }
{
    Ok(match byte {
        b if is_target_byte(b) => Some(State::Target(with_byte(target, b)?)),
        b'>' => Some(State::Ended(Draft::to_target(target))),
        _ => None,
    })
}

// What ends a parameter, or the whole link.
fn separated(
    alloc: Global,
    link: Draft,
    items: &mut Vec<LinkItem>,
    byte: u8,
) -> Result<Option<State>, NoMemory>
    ensures { Moves (separated link items.old.items byte) items.new.items result }
{
    match byte {
        b';' => Ok(Some(State::BeforeName(link))),
        b',' => {
            items.push(link.into_item(alloc))?;
            Ok(Some(State::Between))
        }
        _ => Ok(None),
    }
}

fn ended(
    alloc: Global,
    link: Draft,
    items: &mut Vec<LinkItem>,
    byte: u8,
) -> Result<Option<State>, NoMemory>
    ensures { Moves (ended link items.old.items byte) items.new.items result }
{
    if is_blank(byte) {
        return Ok(Some(State::Ended(link)));
    }
    separated(alloc, link, items, byte)
}

fn before_name(
    alloc: Global,
    link: Draft,
    items: &mut Vec<LinkItem>,
    byte: u8,
) -> Result<Option<State>, NoMemory>
    ensures { Moves (before_name link items.old.items byte) items.new.items result }
{
    if is_token_byte(byte) {
        return Ok(Some(State::Name(link, with_byte(no_bytes(alloc), byte)?)));
    }
    if is_blank(byte) {
        return Ok(Some(State::BeforeName(link)));
    }
    separated(alloc, link, items, byte)
}

fn in_name(
    alloc: Global,
    link: Draft,
    name: Bytes,
    items: &mut Vec<LinkItem>,
    byte: u8,
) -> Result<Option<State>, NoMemory>
    ensures { Moves (in_name link name items.old.items byte) items.new.items result }
{
    if is_token_byte(byte) {
        return Ok(Some(State::Name(link, with_byte(name, byte)?)));
    }
    after_name(alloc, link, name, items, byte)
}

fn after_name(
    alloc: Global,
    link: Draft,
    name: Bytes,
    items: &mut Vec<LinkItem>,
    byte: u8,
) -> Result<Option<State>, NoMemory>
    ensures { Moves (after_name link name items.old.items byte) items.new.items result }
{
    if byte == b'=' {
        return Ok(Some(State::BeforeValue(link, name)));
    }
    if is_blank(byte) {
        return Ok(Some(State::AfterName(link, name)));
    }
    separated(alloc, link.with_param(name, no_bytes(alloc)), items, byte)
}

fn before_value(
    alloc: Global,
    link: Draft,
    name: Bytes,
    byte: u8,
) -> Result<Option<State>, NoMemory>
    ensures { IfOk result (λ s. before_value link name byte ≡ s) }
{
    Ok(match byte {
        b if is_word_byte(b) => Some(State::Word(link, name, with_byte(no_bytes(alloc), b)?)),
        b'"' => Some(State::Quoted(link, name, no_bytes(alloc))),
        b if is_blank(b) => Some(State::BeforeValue(link, name)),
        _ => None,
    })
}

fn in_word(
    alloc: Global,
    link: Draft,
    name: Bytes,
    value: Bytes,
    items: &mut Vec<LinkItem>,
    byte: u8,
) -> Result<Option<State>, NoMemory>
    ensures { Moves (in_word link name value items.old.items byte) items.new.items result }
{
    if is_word_byte(byte) {
        return Ok(Some(State::Word(link, name, with_byte(value, byte)?)));
    }
    ended(alloc, link.with_param(name, value), items, byte)
}

fn in_quotes(link: Draft, name: Bytes, value: Bytes, byte: u8) -> Result<Option<State>, NoMemory>
    ensures { IfOk result (λ s. in_quotes link name value byte ≡ s) }
{
    Ok(match byte {
        b if is_quoted_byte(b) => Some(State::Quoted(link, name, with_byte(value, b)?)),
        b'"' => Some(State::Ended(link.with_param(name, value))),
        b'\\' => Some(State::Escaped(link, name, value)),
        _ => None,
    })
}

fn escaped(link: Draft, name: Bytes, value: Bytes, byte: u8) -> Result<Option<State>, NoMemory>
    ensures { IfOk result (λ s. escaped link name value byte ≡ s) }
{
    if is_escaped_byte(byte) {
        return Ok(Some(State::Quoted(link, name, with_byte(value, byte)?)));
    }
    Ok(None)
}
