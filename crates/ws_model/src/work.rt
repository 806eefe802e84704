// Work, and how the exchange of a ticket ends.
ghost use Rattle.std.specs.Prelude.{◌≡◌, ◌≤◌, [], ◌∷◌, ◌++◌, OnOk, OnErr};
ghost use Rattle.ws_model.specs.Fate.{delay};
ghost use Rattle.ws_model.specs.Fit.{is_fit, is_fit_media, is_fit_reply, is_head_text};
ghost use Rattle.ws_model.specs.Legal.{is_blank, is_trimmed};

use crate::{Key, NoMemory, Reply};
use std::alloc::Global;
use std::marker::Model;

/// The greatest length of a body, in bytes.
const BODY_LIMIT: usize = 4_194_304;

/// The greatest length of a head's field, in bytes.
const FIELD_LIMIT: usize = 16_512;

/// One thing to be done over the network: a verification, a denial notice, a fetch, or a push.
///
/// `upto` is the greatest serial of the history when the fetch was drawn.
#[derive(Debug, Drop, PartialEq)]
pub enum Work {
    Verify { n: u64 },
    Notice { n: u64 },
    Fetch { topic: Key, upto: u64 },
    Push { ver: u64, lease: u64 },
}

/// How an exchange ended: with a reply, or without one.
#[derive(Debug, Drop, PartialEq)]
pub enum Outcome {
    Reply(Reply),
    Lost,
    Late,
    TooLong,
    Garbled,
}

/// The work whose tickets are out. A contract sees it as a list.
#[derive(Debug, Drop)]
pub struct Held {
    works: Vec<Work>,
}

impl Model for Held {
    ghost use Rattle.std.specs.Prelude.{List};
    ghost use Rattle.ws_model.specs.declared.work.Work.{Work};

    ghost Value = { List Work };

    ghost view = { λ h. h.works.items };
}

impl Held {
    /// No work. It takes no memory.
    pub fn empty(alloc: Global) -> Held
        ensures { result ≡ [] }
    {
        Held {
            works: Vec::new(alloc),
        }
    }

    /// Adds work at the end. At an error the list is as it was.
    pub fn push(&mut self, work: Work) -> Result<(), NoMemory>
        ensures ok { OnOk result (self.new ≡ self.old ++ work ∷ []) }
        ensures err { OnErr result (self.new ≡ self.old) }
    {
        self.works.push(work)?;
        Ok(())
    }

    /// The work as a slice.
    pub fn as_slice(&self) -> &[Work]
        ensures { result.now ≡ self.now }
    {
        &self.works
    }
}

/// Whether a head's field is short enough and has no CR, LF or NUL.
fn is_head_text(text: &[u8]) -> bool
    ensures { result ≡ is_head_text text.now }
{
    text.len() <= FIELD_LIMIT && !text.contains(&13) && !text.contains(&10) && !text.contains(&0)
}

/// Whether a byte is a space or a tab.
fn is_blank(byte: u8) -> bool
    ensures { result ≡ is_blank byte }
{
    byte == 32 || byte == 9
}

/// Whether a text has no space or tab at its ends.
fn is_trimmed(text: &[u8]) -> bool
    ensures { result ≡ is_trimmed text.now }
{
    if text.is_empty() {
        return true;
    }
    !is_blank(text[0]) && !is_blank(text[text.len() - 1])
}

/// Whether a text is a media type that a head can carry.
fn is_media(text: &[u8]) -> bool
    ensures { result ≡ is_fit_media text.now }
{
    is_head_text(text) && is_trimmed(text)
}

impl Reply {
    /// Whether an exchange could give this reply.
    fn fit(&self) -> bool
        ensures { result ≡ is_fit_reply self.now }
    {
        if self.code < 200 || self.code > 999 || self.body.as_slice().len() > BODY_LIMIT {
            return false;
        }
        is_media(self.media.as_slice())
            && is_head_text(self.coding.as_slice())
            && is_head_text(self.links.as_slice())
    }
}

impl Outcome {
    /// Whether an exchange could end so: a reply's status is 200 to 999, its body has at most
    /// 4,194,304 bytes, its media, coding and links have at most 16,512 bytes each and no CR, LF or
    /// NUL, and its media has no space or tab at its ends. It takes no memory.
    pub fn fit(&self) -> bool
        ensures { result ≡ is_fit self.now }
    {
        match self {
            Outcome::Reply(reply) => reply.fit(),
            _ => true,
        }
    }
}

/// The wait in seconds after the `k`-th miss of a push.
pub fn delay(k: u8) -> u64
    requires { 1 ≤ k × k ≤ 7 }
    ensures { result ≡ delay k }
{
    match k {
        1 => 10,
        2 => 30,
        3 => 60,
        4 => 300,
        5 => 900,
        6 => 3_600,
        _ => 10_800,
    }
}
