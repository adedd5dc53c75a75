use crate::words::read_words;
use crate::words_fault::WordsFault;
use std::alloc::{AllocError, Global};
use std::test::Fail;

// The help that these words are answered with, or nothing where they ask for none.
fn help_of(alloc: Global, words: &[&str]) -> Result<String, AllocError> {
    let mut list = Vec::new(alloc);
    for word in words {
        list.push(String::from_str(alloc, word)?)?;
    }
    match read_words(alloc, list.as_slice()) {
        Err(WordsFault::Help { text }) => Ok(text),
        Err(WordsFault::Memory) => Err(AllocError),
        _ => Ok(String::new(alloc)),
    }
}

#[test]
fn help_is_the_text_of_clap(rt: HostRuntime) -> Result<(), Fail> {
    let alloc = rt.alloc();
    let script = "Answers a script, line by line

Usage: vtgate_cl script

Options:
  -h, --help  Print help
";
    let check = "Prints what a catalog has

Usage: vtgate_cl check --catalog <F>

Options:
      --catalog <F>  The catalog file
  -h, --help         Print help
";
    for (words, text) in [
        (["script", "-h"].as_slice(), script),
        (["script", "--help"].as_slice(), script),
        (["check", "--help"].as_slice(), check),
        (["check", "--catalog", "b.json", "-h"].as_slice(), check),
        // The first fault comes before, and what has no version is asked for none.
        (["check", "--data", "-h"].as_slice(), ""),
        (["check", "-h", "--data"].as_slice(), check),
        (["check", "--catalog", "-h"].as_slice(), ""),
        (["check", "--version"].as_slice(), ""),
        (["check", "help"].as_slice(), ""),
        (["check", "--", "-h"].as_slice(), ""),
        (["check", "--catalog=b.json"].as_slice(), ""),
        (["help"].as_slice(), ""),
        (["--help"].as_slice(), ""),
    ] {
        assert_eq!(rt; help_of(alloc, words)?.as_str(), text);
    }
    Ok(())
}
