ghost use Rattle.std.specs.Prelude.{◌≡◌, IfOk, string_bytes, codes};
ghost use Rattle.std.specs.List.{HoldsAt};
ghost use Rattle.wotsirma.specs.Commands.{word};

use super::failure::Failure;
use quote::{Items, Rates};
use std::alloc::Global;

// What the words of the command line ask for.
#[derive(Clone, Copy)]
pub enum Command {
    Show,
    Dump,
    Quote(Items, Rates),
    Help,
}

// The command of these words, the first of which is the program's own name.
pub fn parse(heap: Global, words: &[String]) -> Result<Command, Failure>
    ensures { IfOk result (λ c. HoldsAt (λ given. string_bytes given ≡ word c) words.now 1) }
{
    let first = words.get(1).ok_or(Failure::NoCommand)?;
    match first.as_str() {
        "show" => alone(words, Command::Show, "wotsirma show < SCREEN"),
        "dump" => alone(words, Command::Dump, "wotsirma dump < SCREEN"),
        "help" => alone(words, Command::Help, "wotsirma help"),
        "quote" => quote_of(words),
        other => Err(Failure::Command(String::from_str(heap, other)?)),
    }
}

// A command that takes no further words.
fn alone(words: &[String], command: Command, usage: &'static str) -> Result<Command, Failure>
    ensures { IfOk result (λ c. c ≡ command) }
{
    if words.len() > 2 {
        return Err(Failure::Words(usage));
    }
    Ok(command)
}

fn quote_of(words: &[String]) -> Result<Command, Failure>
    ensures { IfOk result (λ c. word c ≡ codes "quote") }
{
    let [_, _, components, props, component, prop, discount] = words else {
        return Err(Failure::Words(
            "wotsirma quote COMPONENTS PROPS COMPONENT_RATE PROP_RATE DISCOUNT",
        ));
    };
    let items = Items {
        components: number("COMPONENTS", components)?,
        props: number("PROPS", props)?,
    };
    let rates = Rates {
        component: number("COMPONENT_RATE", component)?,
        prop: number("PROP_RATE", prop)?,
        discount: number("DISCOUNT", discount)?,
    };
    Ok(Command::Quote(items, rates))
}

// A number past 32 bits is past every limit too, so the largest one stands for it.
fn number(what: &'static str, word: &str) -> Result<u32, Failure> {
    let n: u64 = word.parse().map_err(|_| Failure::Number(what))?;
    Ok(u32::try_from(n).unwrap_or(u32::MAX))
}
