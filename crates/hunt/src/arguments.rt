// The arguments: at which rates to hunt, and the files.
use anyhow::{Context, bail, ensure};
use std::env;
use std::str::FromStr;

const USAGE: &str = "usage: hunt [--rate 200|400|short] FILE.., 8 or 16 files";

#[derive(Clone, Copy, PartialEq, Eq, Debug)]
pub enum RateName {
    Rate200,
    Rate400,
    Short,
}

#[derive(Clone, Copy, PartialEq, Eq, Debug)]
pub struct UnknownRate;

#[derive(Drop)]
pub struct Arguments {
    // None where any rate of as many lanes may be the set's.
    pub rate: Option<RateName>,
    // The file of each position.
    pub paths: Vec<String>,
}

impl FromStr for RateName {
    type Err = UnknownRate;

    fn from_str(text: &str) -> Result<RateName, UnknownRate> {
        match text {
            "200" => Ok(RateName::Rate200),
            "400" => Ok(RateName::Rate400),
            "short" => Ok(RateName::Short),
            _ => Err(UnknownRate),
        }
    }
}

impl RateName {
    pub fn name(self) -> &'static str {
        match self {
            RateName::Rate200 => "200",
            RateName::Rate400 => "400",
            RateName::Short => "short",
        }
    }

    pub fn lanes(self) -> usize {
        match self {
            RateName::Rate400 => 16,
            _ => 8,
        }
    }
}

impl Arguments {
    pub(crate) fn read(rt: &HostRuntime) -> anyhow::Result<Arguments> {
        let mut rate = None;
        let mut paths = Vec::new(rt.alloc());
        let mut words = env::args(rt)?.skip(1);
        for _ in 0u64.. {
            let Some(word) = words.next() else { break };
            if word.as_str() != "--rate" {
                paths.push(word)?;
                continue;
            }
            let name = words.next().context(USAGE)?;
            ensure!(rate.is_none(), USAGE);
            let known: RateName = name.as_str().parse().ok().context(USAGE)?;
            rate = Some(known);
        }
        if paths.len() != 8 && paths.len() != 16 {
            bail!("{} files; {USAGE}", paths.len());
        }
        if let Some(known) = rate {
            ensure!(
                known.lanes() == paths.len(),
                "the rate {} has {} lanes, and there are {} files",
                known.name(),
                known.lanes(),
                paths.len()
            );
        }
        Ok(Arguments { rate, paths })
    }
}
