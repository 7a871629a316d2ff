// Records as text, and back: prints the records of standard input a line each, or with `--binary` makes records of such lines.
#![tactic(auto)]

use anyhow::{Context, bail, ensure};
use commands::{print_records, print_text};
use std::env;
use std::io::{BufReader, BufWriter, Write};

const USAGE: &str = "usage: text [--binary]";

// Whether records are to be made, and not text.
fn wants_binary(rt: &HostRuntime) -> anyhow::Result<bool> {
    let mut words = env::args(rt)?.skip(1);
    let binary = match words.next() {
        None => false,
        Some(word) => {
            ensure!(
                word.as_str() == "--binary",
                "{word:?} is no option; {USAGE}"
            );
            true
        }
    };
    ensure!(words.next().is_none(), USAGE);
    Ok(binary)
}

fn main(rt: HostRuntime) -> anyhow::Result<()> {
    let binary = wants_binary(&rt)?;
    let mut input = BufReader::new(rt.alloc(), rt.stdin())?;
    let mut out = BufWriter::new(rt.alloc(), rt.stdout())?;
    if binary {
        if let Some(wrong) = print_records(rt.alloc(), &mut input, &mut out)? {
            bail!(wrong);
        }
    } else if print_text(rt.alloc(), &mut input, &mut out)?.is_some() {
        out.flush().context("writing standard output")?;
        bail!("refused");
    }
    out.flush().context("writing standard output")
}
