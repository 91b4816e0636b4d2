//! Reads screens parted by lines of two dashes, and writes the dump of each, or why it is not read. What is expected
//! of good screens was written by a program that holds the original pass; of bad ones, by hand.
#![tactic(auto)]

use anyhow::Context;
use comma_lines::read;
use screen_text::dump;
use std::alloc::{AllocError, Global};
use std::io::Write;
use std::{fmt, io};

fn main(rt: HostRuntime) -> anyhow::Result<()> {
    run(&rt)
}

fn run(rt: &HostRuntime) -> anyhow::Result<()> {
    let input = io::read_to_string(rt.alloc(), rt.stdin())?;
    for screen in input.split("--\n") {
        let text = answer(rt.alloc(), screen)?;
        rt.stdout().write_all(text.as_slice())?;
        rt.stdout().write_all(b"--\n")?;
    }
    Ok(())
}

fn answer(heap: Global, lines: &str) -> Result<Vec<u8>, AllocError> {
    dump_of(heap, lines).or_else(|error| line(heap, error))
}

fn dump_of(heap: Global, lines: &str) -> anyhow::Result<Vec<u8>> {
    let mut screen = read(heap, lines)?;
    let counts = screen.counts().context("too large")?;
    Ok(dump(heap, &screen.lend(counts))?)
}

fn line(heap: Global, message: impl fmt::Display + Drop) -> Result<Vec<u8>, AllocError> {
    let mut text = message.to_string(heap)?;
    text.push('\n')?;
    Ok(text.into_bytes())
}
