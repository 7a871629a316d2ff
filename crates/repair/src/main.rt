// Encodes a message, changes some of its symbols, corrects the word and prints what it did.
// The argument is how many symbols are changed, 15 where there is none.
#![tactic(auto)]

use anyhow::Context;
use commands::print_repair;
use std::env;

fn main(rt: HostRuntime) -> anyhow::Result<()> {
    let mut count = 15usize;
    for word in env::args(&rt)?.skip(1) {
        count = word
            .as_str()
            .parse()
            .context(format_args!("{word:?} is no count of symbols"))?;
    }
    let mut out = rt.stdout();
    print_repair(rt.alloc(), &mut out, count)?;
    Ok(())
}
