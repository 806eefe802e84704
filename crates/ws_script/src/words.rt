// The words of a line that name a topic and a callback.
ghost use Rattle.std.specs.Prelude.{◌≡◌, ◌≢◌, ◌==◌, ◌∷◌, ◌++◌, ℕ, List, Result, true, position, MatchOption};
ghost use Rattle.ws_target.specs.declared.fault.TargetFault.{TargetFault as Fault};
ghost use Rattle.ws_target.specs.Answers.{Gives};
ghost use Rattle.ws_target.specs.Keys.{key_or_fault};
ghost use Rattle.ws_script.specs.Bytes.{is_word};
ghost use Rattle.ws_script.specs.Words.{NamesKey, NamesPair};

use std::alloc::Global;
use ws_model::{Bytes, Key, NoMemory};
use ws_target::TargetFault;

/// A word of a script that names a topic or a callback.
#[derive(Debug, Drop)]
pub struct Word {
    /// The word as it stands in the script.
    pub text: Bytes,
    /// The key that it names.
    pub key: Key,
}

// Whether the text has bytes, and neither a space nor a line feed among them.
fn is_word(text: &[u8]) -> bool
    ensures { result ≡ is_word text.now }
{
    !text.is_empty() && !text.contains(&b' ') && !text.contains(&b'\n')
}

fn first_space(text: &[u8]) -> Option<usize>
    ensures { result ≡ position (λ b. b == 32) text.now }
{
    text.iter().position(|b| *b == b' ')
}

// The two words that the text is, with one space between them.
fn two_words(text: &[u8]) -> Option<(&[u8], &[u8])>
    ensures { MatchOption result
        ((first second : List ℕ) → is_word first ≡ true → is_word second ≡ true → text.now ≢ first ++ 32 ∷ second)
        (λ words. (is_word words.0.now ≡ true) × (is_word words.1.now ≡ true) × (text.now ≡ words.0.now ++ 32 ∷ words.1.now)) }
{
    let Some(space) = first_space(text) else {
        return None;
    };
    let first = &text[..space];
    let second = &text[space + 1..];
    if is_word(first) && is_word(second) {
        Some((first, second))
    } else {
        None
    }
}

// The word with the key that it was answered, where it was answered one.
fn with_key(
    alloc: Global,
    text: &[u8],
    answer: Result<Key, TargetFault>,
) -> Result<Option<Word>, NoMemory>
    ensures { (meant : Result (List ℕ) Fault) → Gives meant answer → NamesKey meant text.now result }
{
    match answer {
        Ok(key) => Ok(Some(Word {
            text: Bytes::copy(alloc, text)?,
            key,
        })),
        Err(TargetFault::NoMemory) => Err(NoMemory),
        Err(_) => Ok(None),
    }
}

fn topic_word(alloc: Global, text: &[u8], gateway: bool) -> Result<Option<Word>, NoMemory>
    ensures { NamesKey (key_or_fault gateway text.now) text.now result }
{
    with_key(alloc, text, ws_target::topic(alloc, text, gateway))
}

fn callback_word(alloc: Global, text: &[u8], gateway: bool) -> Result<Option<Word>, NoMemory>
    ensures { NamesKey (key_or_fault gateway text.now) text.now result }
{
    with_key(alloc, text, ws_target::callback(alloc, text, gateway))
}

/// The topic and the callback that the text names, with one space between them.
pub fn topic_and_callback(
    alloc: Global,
    text: &[u8],
    gateway: bool,
) -> Result<Option<(Word, Word)>, NoMemory>
    ensures { NamesPair gateway text.now result }
{
    let Some((topic, callback)) = two_words(text) else {
        return Ok(None);
    };
    let Some(topic) = topic_word(alloc, topic, gateway)? else {
        return Ok(None);
    };
    let Some(callback) = callback_word(alloc, callback, gateway)? else {
        return Ok(None);
    };
    Ok(Some((topic, callback)))
}
