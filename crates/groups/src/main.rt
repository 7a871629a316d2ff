// Reads block records from standard input, four a group, and prints each group as a line.
#![tactic(auto)]

use anyhow::{Context, ensure};
use commands::print_groups;
use std::io::{BufReader, BufWriter, Write};

fn main(rt: HostRuntime) -> anyhow::Result<()> {
    let mut input = BufReader::new(rt.alloc(), rt.stdin())?;
    let mut out = BufWriter::new(rt.alloc(), rt.stdout())?;
    let printed = print_groups(rt.alloc(), &mut input, &mut out);
    // What was printed before an error stands, and an error of printing is told before one of writing the rest.
    let flushed = out.flush().context("writing standard output");
    let refused = printed?;
    flushed?;
    ensure!(refused.is_none(), "refused");
    Ok(())
}
