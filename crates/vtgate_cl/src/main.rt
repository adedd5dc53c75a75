//! The program. `vtgate_cl script` reads a script from standard input and writes the answer of each of its
//! lines to standard output; `vtgate_cl check --catalog F` writes what a catalog has, or why it is refused.
//!
//! `batch` is all that the program does, over files, a source and a sink of bytes, and its contract is the
//! program's promise: what is printed of a script is what ONE table with its unique keys answers to the lines,
//! in order, up to where the status says that it ends; what is printed of a catalog is the report of what its
//! files mean, or their first fault. `main` makes the real files, source and sink and ends with the status.
//! Where the words ask for the help of a command it prints that, too, with the status of words that aren't accepted.
#![tactic(auto)]

ghost use Rattle.std.specs.Prelude.{◌≡◌};
ghost use Rattle.vtgate_cl.specs.Words.{AsksHelp};

mod answer;
mod batch;
mod check;
mod client;
mod fault_line;
mod player;
mod reading;
mod reply_line;
mod script_line;
mod status;
mod stop;
mod wanted;
mod words;
mod words_fault;

use batch::batch;
use status::Status;
use std::alloc::{AllocError, Global};
use std::process::ExitCode;
use std::{env, io};
use vl_base::{FolderFiles, Sink, StdSink, StdSource, write_all};
use words::read_words;
use words_fault::WordsFault;

fn main(rt: HostRuntime) -> ExitCode {
    let Ok(words) = words_of(&rt) else {
        return ExitCode::from(Status::OutOfMemory.number());
    };
    let mut files = FolderFiles::new(&rt, rt.alloc());
    let mut src = StdSource::new(rt.reader());
    let mut out = StdSink::new(io::writer(&rt));
    tell_help(rt.alloc(), words.as_slice(), &mut out);
    let status = batch(rt.alloc(), words.as_slice(), &mut files, &mut src, &mut out);
    ExitCode::from(status.number())
}

// Prints the help that the words ask for. A sink that fails changes no status: the words aren't accepted.
fn tell_help<O: Sink>(alloc: Global, words: &[String], out: &mut O)
    ensures { (AsksHelp words.now → ⊥) → out.new ≡ out.old }
{
    match read_words(alloc, words) {
        Err(WordsFault::Help { text }) => {
            let _ = write_all(out, text.as_bytes());
        }
        _ => {}
    }
}

// The words behind the program's name.
fn words_of(rt: &HostRuntime) -> io::Result<Vec<String>> {
    let mut words = Vec::new(rt.alloc());
    for word in env::args(rt)?.skip(1) {
        words.push(word)?;
    }
    Ok(words)
}

#[cfg(test)]
mod check_tests;
#[cfg(test)]
mod tests;
#[cfg(test)]
mod words_tests;
