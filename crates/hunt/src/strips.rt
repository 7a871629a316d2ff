// The files of the positions, read in step.
use anyhow::{Context, bail};
use std::fs::File;
use std::io::Read;

// How many bytes of each file are kept.
const BLOCK: usize = 4096;

#[derive(Drop)]
struct Strip<'a> {
    path: &'a str,
    file: File,
    // What was read last, at most BLOCK bytes.
    bytes: Vec<u8>,
}

impl<'a> Strip<'a> {
    fn open(rt: &HostRuntime, path: &'a str) -> anyhow::Result<Strip<'a>> {
        let file = File::open(rt, path).context(format_args!("opening {path}"))?;
        if file.metadata()?.is_dir() {
            bail!("{path} is a folder");
        }
        Ok(Strip {
            path,
            file,
            bytes: Vec::new(rt.alloc()),
        })
    }

    // Reads on. Fewer bytes than BLOCK are the last ones.
    fn refill(&mut self) -> anyhow::Result<()> {
        self.bytes.clear();
        self.file
            .by_ref()
            .take(BLOCK as u64)
            .read_to_end(&mut self.bytes)
            .context(format_args!("reading {}", self.path))?;
        Ok(())
    }
}

// `next` of the bytes that are in were taken, and `len` are in at every position.
#[derive(Drop)]
pub struct Strips<'a> {
    strips: Vec<Strip<'a>>,
    next: usize,
    len: usize,
    ended: bool,
}

impl<'a> Strips<'a> {
    pub(crate) fn open(rt: &HostRuntime, paths: &'a [String]) -> anyhow::Result<Strips<'a>> {
        let mut strips = Vec::new(rt.alloc());
        for path in paths {
            strips.push(Strip::open(rt, path.as_str())?)?;
        }
        Ok(Strips {
            strips,
            next: 0,
            len: 0,
            ended: false,
        })
    }

    // The next byte of each position, 0 past the positions. None where a file has no more.
    pub(crate) fn next(&mut self) -> anyhow::Result<Option<[u8; 16]>> {
        if self.next >= self.len && !self.ended {
            self.refill()?;
        }
        if self.next >= self.len {
            return Ok(None);
        }
        let mut bytes = [0; 16];
        for (byte, strip) in bytes.iter_mut().zip(self.strips.iter()) {
            *byte = strip.bytes.get(self.next).copied().unwrap_or(0);
        }
        self.next += 1;
        Ok(Some(bytes))
    }

    fn refill(&mut self) -> anyhow::Result<()> {
        let mut len = BLOCK;
        for strip in self.strips.iter_mut() {
            strip.refill()?;
            len = len.min(strip.bytes.len());
        }
        self.next = 0;
        self.len = len;
        self.ended = len < BLOCK;
        Ok(())
    }

    // The file that ended before another, once one has ended.
    pub(crate) fn shortest(&self) -> Option<&'a str> {
        if self.strips.iter().all(|s| s.bytes.len() == self.len) {
            return None;
        }
        self.strips
            .iter()
            .find(|s| s.bytes.len() == self.len)
            .map(|s| s.path)
    }
}
