// The words of a command line.
ghost use Rattle.std.specs.Prelude.{◌≡◌, ◌+◌, ◌<◌, ◌^◌, IfOk, length, map, string_bytes, true};
ghost use Rattle.ws_model.specs.Key.{is_key};
ghost use Rattle.ws_program.specs.Drafts.{HasKey, nothing_set, setting_of};
ghost use Rattle.ws_program.specs.Words.{Tells, next_setting, with_setting, place_without_value, draft_words, settings_words, command_words};
ghost use Rattle.ws_program.specs.declared.words.WordFault.TheVariants as fault;

use crate::draft::{Draft, Setting};
use std::alloc::Global;
use ws_model::{NoMemory, Settings};

/// Why words are no command line.
#[derive(Clone, Copy, Debug, PartialEq, Eq, thiserror::Error)]
pub enum WordFault {
    /// The word of this place, from 1, is the first at which no command line can go on.
    #[error("words: {0}")]
    At(u64),
    /// There was no memory.
    #[error("no memory")]
    NoMemory,
}

impl From<NoMemory> for WordFault {
    ghost from_gives = { λ _ e. e ≡ fault.NoMemory };

    fn from(_: NoMemory) -> Self {
        WordFault::NoMemory
    }
}

// The setting of a word that may stand behind what is set.
fn next_setting(draft: &Draft, word: &str) -> Option<Setting>
    ensures { result ≡ next_setting draft.now (setting_of word.now) }
{
    match Setting::of(word) {
        Some(setting) if draft.may_set(setting) => Some(setting),
        _ => None,
    }
}

// What is set with this word, at that place, and its value.
fn with_setting(
    alloc: Global,
    draft: Draft,
    place: u64,
    word: &str,
    value: &str,
) -> Result<Draft, WordFault>
    requires { place < 2 ^ 63 }
    ensures value { Tells (with_setting place draft (next_setting draft (setting_of word.now)) value.now) result }
    ensures key { HasKey draft → IfOk result HasKey }
{
    let Some(setting) = next_setting(&draft, word) else {
        return Err(WordFault::At(place));
    };
    match draft.with(alloc, setting, value)? {
        Some(draft) => Ok(draft),
        None => Err(WordFault::At(place + 1)),
    }
}

// The place of the fault of a word, at that place, behind which nothing stands.
fn place_without_value(draft: &Draft, place: u64, word: &str) -> u64
    requires { place < 2 ^ 63 }
    ensures { result ≡ place_without_value place (next_setting draft.now (setting_of word.now)) }
{
    match next_setting(draft, word) {
        Some(_) => place + 1,
        None => place,
    }
}

// What is set with the settings that the words are, the first of them at that place. A setting that
// stands too often is a fault, so this calls itself at most twenty times.
fn draft_words(
    alloc: Global,
    draft: Draft,
    place: u64,
    words: &[String],
) -> Result<Draft, WordFault>
    requires { place + length words.now < 2 ^ 63 }
    ensures value { Tells (draft_words place draft (map string_bytes words.now)) result }
    ensures key { HasKey draft → IfOk result HasKey }
{
    match words {
        [] => Ok(draft),
        [word] => Err(WordFault::At(place_without_value(&draft, place, word.as_str()))),
        [word, value, others @ ..] => {
            let draft = with_setting(alloc, draft, place, word.as_str(), value.as_str())?;
            draft_words(alloc, draft, place + 2, others)
        }
    }
}

/// The settings that the words are, the first of them at that place.
#[tactic(auto, unfolding(crate::specs::Words::settings_words))]
pub fn settings_words(alloc: Global, words: &[String], first: u64) -> Result<Settings, WordFault>
    requires { first + length words.now < 2 ^ 63 }
    ensures value { Tells (settings_words first (map string_bytes words.now)) result }
    ensures key { IfOk result (λ settings. is_key settings.policy.hub ≡ true) }
{
    let draft = draft_words(alloc, Draft::empty(alloc), first, words)?;
    Ok(draft.settings(alloc)?)
}

/// The settings of the command line.
pub fn command_words(alloc: Global, words: &[String]) -> Result<Settings, WordFault>
    ensures value { Tells (command_words (map string_bytes words.now)) result }
    ensures key { IfOk result (λ settings. is_key settings.policy.hub ≡ true) }
{
    match words {
        [word, others @ ..] if word.as_str() == "drive" => settings_words(alloc, others, 2),
        _ => Err(WordFault::At(1)),
    }
}
