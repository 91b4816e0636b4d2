use super::command::{Command, parse};
use super::failure::Failure;
use comma_lines::read;
use hir::Store;
use quote::{Cents, Items, Rates, quote, worked_example};
use screen::Screen;
use screen_text::{PrintError, dump, show};
use std::alloc::Global;
use std::io::Write;
use std::{env, io};

pub fn run(rt: &HostRuntime) -> Result<(), Failure> {
    let words = words_of(rt)?;
    match parse(rt.alloc(), words.as_slice())? {
        Command::Show => run_print(rt, show),
        Command::Dump => run_print(rt, dump),
        Command::Quote(items, rates) => run_quote(rt, items, rates),
        Command::Help => run_help(rt),
    }
}

fn words_of(rt: &HostRuntime) -> Result<Vec<String>, Failure> {
    let args = env::args(rt).map_err(Failure::Input)?;
    Ok(args.collect(rt.alloc())?)
}

fn read_screen(rt: &HostRuntime) -> Result<Screen, Failure> {
    let text = io::read_to_string(rt.alloc(), rt.stdin()).map_err(Failure::Input)?;
    Ok(read(rt.alloc(), text.as_str())?)
}

// Reads a screen, and writes the text that `print` makes of it.
fn run_print<F>(rt: &HostRuntime, print: F) -> Result<(), Failure>
where
    F: FnOnce(Global, &Store<'_>) -> Result<Vec<u8>, PrintError>,
    requires { F.IsAlwaysCallable print }
{
    let mut screen = read_screen(rt)?;
    let counts = screen.counts().ok_or(Failure::TooLarge)?;
    let text = print(rt.alloc(), &screen.lend(counts))?;
    put(rt, text.as_slice())
}

fn put(rt: &HostRuntime, bytes: &[u8]) -> Result<(), Failure> {
    rt.stdout().write_all(bytes).map_err(Failure::Output)
}

fn run_quote(rt: &HostRuntime, items: Items, rates: Rates) -> Result<(), Failure> {
    let price = quote(items, rates)?;
    let text = format!(in rt.alloc();
        "gross {} cents, {}\nnet {} cents, {}\n",
        price.gross,
        Cents(price.gross),
        price.net,
        Cents(price.net)
    )?;
    put(rt, text.as_bytes())
}

fn run_help(rt: &HostRuntime) -> Result<(), Failure> {
    put(rt, HELP.as_bytes())?;
    let price = worked_example()?;
    let text = format!(in rt.alloc();
        "For example, quote 1 1 1000 5 500 gives {} gross and {} net: half a cent goes up.\n",
        Cents(price.gross),
        Cents(price.net)
    )?;
    put(rt, text.as_bytes())
}

const HELP: &str = "wotsirma: the outlining pass of a screen build

  wotsirma show < SCREEN   the screen as a compiler engineer reads it
  wotsirma dump < SCREEN   the canonical dump, by which two builds are compared
  wotsirma quote COMPONENTS PROPS COMPONENT_RATE PROP_RATE DISCOUNT
                           gross and net; rates in cents, the discount in thousandths
  wotsirma help            this text

A SCREEN is a text of comma lines, one for each row of its tables.
";
