// The arguments: what to send by, where to write, and where the blocks come from.
use anyhow::{Context, bail};
use std::env;
use std::str::FromStr;

const USAGE: &str = "usage: strips 200|400|short SCRAMBLER-START PAD-START STATUS PREFIX [BLOCKS]";

#[derive(Clone, Copy, PartialEq, Eq, Debug)]
pub enum RateName {
    Rate200,
    Rate400,
    Short,
}

#[derive(Clone, Copy, PartialEq, Eq, Debug)]
pub struct UnknownRate;

#[derive(Drop)]
pub struct Arguments {
    pub rate: RateName,
    pub scramble: u64,
    pub pad: u16,
    pub status: u8,
    // What the names of the lanes' files begin with.
    pub prefix: String,
    // The file of blocks; standard input where there is none.
    pub blocks: Option<String>,
}

impl FromStr for RateName {
    type Err = UnknownRate;

    fn from_str(text: &str) -> Result<RateName, UnknownRate> {
        match text {
            "200" => Ok(RateName::Rate200),
            "400" => Ok(RateName::Rate400),
            "short" => Ok(RateName::Short),
            _ => Err(UnknownRate),
        }
    }
}

// A number in decimal digits, or in hexadecimal ones behind 0x. One that is too large for its type is the largest of the type,
// which is out of every range too.
fn number(text: &str) -> anyhow::Result<u64> {
    let (digits, radix) = match text.strip_prefix("0x") {
        Some(digits) => (digits, 16),
        None => (text, 10),
    };
    if digits.is_empty() || !digits.chars().all(|c| c.is_digit(radix)) {
        bail!("{text:?} is no number");
    }
    Ok(u64::from_str_radix(digits, radix).unwrap_or(u64::MAX))
}

impl Arguments {
    pub(crate) fn read(rt: &HostRuntime) -> anyhow::Result<Arguments> {
        let mut words = env::args(rt)?.skip(1);
        let mut next = || words.next().context(USAGE);
        let rate = next()?.as_str().parse().ok().context(USAGE)?;
        let scramble = number(next()?.as_str())?;
        let pad = number(next()?.as_str())?;
        let status = number(next()?.as_str())?;
        let prefix = next()?;
        let blocks = words.next();
        if words.next().is_some() {
            bail!(USAGE);
        }
        Ok(Arguments {
            rate,
            scramble,
            pad: u16::try_from(pad).unwrap_or(u16::MAX),
            status: u8::try_from(status).unwrap_or(u8::MAX),
            prefix,
            blocks,
        })
    }
}
