// Tries the sender on the standard's example words. At 200 and at 400 a sender sends its first pair, of idle blocks; the two
// words and their message are read off the lanes again and compared with the rows that were printed. These come on standard
// input, a line each: the name of the word, the row's number, `whole` and its digits, or `damaged` where the scan that it was
// taken from is no evidence.
#![tactic(auto)]

use anyhow::ensure;
use commands::print_rows;

fn main(rt: HostRuntime) -> anyhow::Result<()> {
    let equal = print_rows(rt.alloc(), &mut rt.stdin(), &mut rt.stdout())?;
    ensure!(equal, "some rows are not those that were sent");
    Ok(())
}
