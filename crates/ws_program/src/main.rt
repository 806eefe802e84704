//! Tubhollow's commands.
#![tactic(auto)]

mod command;
#[cfg(test)]
mod connection_tests;
mod draft;
#[cfg(test)]
mod tests;
mod values;
mod words;

use std::env;
use std::io::{self, BufReader};
use std::process::ExitCode;
use ws_link::{ReaderSource, Status, WriterSink};

const USAGE: &str = "usage: tubhollow drive [SETTING].. < SCRIPT
       tubhollow --help | --version

drive  plays the script on standard input and writes its transcript:
         at T      sets the clock to T seconds
         form N    takes a form of the N bytes that follow, with a line feed behind them
         in N      serves one HTTP connection with the N bytes that follow and then the end
         revoke TOPIC CALLBACK
                   ends the lease of that topic and callback
         sum       writes the account
         end       ends the script

settings, in any order, each at most once but for --allow:
         --hub URL              the hub's own URL (http://127.0.0.1:8080/)
         --gateway HOST:PORT    where requests go; with it URLs may have the scheme https
         --alg sha1|sha256|sha384|sha512
                                the hash by which pushes are signed (sha256)
         --allow PREFIX         what keys of topics may begin with, up to 16 times (anything)
";

const VERSION: &str = "tubhollow 0.1.0 (proved with rattle-kit-13f logic dac8208d650f15bf)";

// Answers a word that asks about the program itself.
fn about(rt: &impl Print, words: &[String]) -> io::Result<bool> {
    match words {
        [word] if word.as_str() == "--help" => print!(rt; "{USAGE}")?,
        [word] if word.as_str() == "--version" => println!(rt; "{VERSION}")?,
        _ => return Ok(false),
    }
    Ok(true)
}

// The words behind the program's name.
fn arguments(rt: &HostRuntime) -> Result<Vec<String>, Status> {
    let Ok(all) = env::args(rt) else {
        return Err(Status::Words { place: 1 });
    };
    let mut words = Vec::new(rt.alloc());
    for word in all.skip(1) {
        if words.push(word).is_err() {
            return Err(Status::NoMemory);
        }
    }
    Ok(words)
}

// Runs the command over standard input and output.
fn run_on_streams(rt: &HostRuntime, words: &[String]) -> Status {
    let Ok(reader) = BufReader::new(rt.alloc(), rt.reader()) else {
        return Status::NoMemory;
    };
    let mut source = ReaderSource::new(reader);
    let mut sink = WriterSink::new(io::writer(rt));
    command::run(rt.alloc(), words, &mut source, &mut sink)
}

fn status_of(rt: &HostRuntime) -> Status {
    let words = match arguments(rt) {
        Ok(words) => words,
        Err(status) => return status,
    };
    match about(rt, &words) {
        Ok(true) => Status::Ok,
        Ok(false) => run_on_streams(rt, &words),
        Err(_) => Status::WriteFailed,
    }
}

fn main(rt: HostRuntime) -> ExitCode {
    let status = status_of(&rt);
    if status != Status::Ok {
        // Where standard error fails too, the exit status still tells.
        let _ = eprintln!(rt; "{status}");
    }
    ExitCode::from(status.code())
}
