// The top call.
ghost use Rattle.std.specs.Prelude.{map, string_bytes};
ghost use Rattle.ws_drive.specs.Runs.{StatusFor};
ghost use Rattle.ws_program.specs.Words.{Does};

use crate::words::{WordFault, command_words};
use std::alloc::Global;
use ws_drive::drive;
use ws_link::{Sink, Source, Status};

/// Does what the words say: `drive` and settings plays the script of the source with these settings
/// and writes its transcript to the sink. Words that are no command line are refused with the place
/// of the first at which none can go on, and nothing is read or written.
///
/// The settings are `--hub URL`, `--gateway HOST:PORT`, `--alg sha1|sha256|sha384|sha512`, each at
/// most once, and `--allow PREFIX`, at most 16 times, in any order.
pub fn run<S: Source, K: Sink>(
    alloc: Global,
    words: &[String],
    source: &mut S,
    sink: &mut K,
) -> Status
    ensures does { Does (map string_bytes words.now) (S.left source.old) (S.left source.new)
        (K.written sink.old) (K.written sink.new) result }
    ensures causes { StatusFor (S.faults source.old) (S.faults source.new) (K.faults sink.old) (K.faults sink.new) result }
{
    match command_words(alloc, words) {
        Ok(settings) => drive(alloc, source, sink, &settings),
        Err(WordFault::At(place)) => Status::Words { place },
        Err(WordFault::NoMemory) => Status::NoMemory,
    }
}
