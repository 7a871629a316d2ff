// The file of one lane. It is written under a fresh name beside its own and put in place when it is whole, so that no file
// that is there is ever opened for writing.
ghost use Rattle.std.specs.Prelude.{◌≡◌, ℕ, List, [], ◌++◌, IfOk, MatchResult, take};
ghost use Rattle.std.specs.Io.{WritesAtMost};
ghost use Rattle.sha2.specs.Hashers.{Holds256};
ghost use Rattle.sha2.specs.Sha256.{sha256};

use anyhow::{Context, bail};
use sha2::{Digest, Sha256};
use std::fs::File;
use std::io::{BufWriter, ErrorKind, Write};
use std::{fs, io};

// How many names are tried for a fresh file.
const NAMES: u32 = 100;

// The octets of a lane, in a file, and their digest so far.
#[derive(Drop)]
pub struct LaneFile {
    path: String,
    // Where the octets stand until the file is put in place.
    fresh: String,
    out: BufWriter<File>,
    digest: Sha256,
}

// A new file beside this path, and its name.
fn create_beside(rt: &HostRuntime, path: &str) -> anyhow::Result<(String, File)> {
    for n in 0..NAMES {
        let fresh = format!(in rt.alloc(); "{path}.new{n}")?;
        match File::create_new(rt, fresh.as_str()) {
            Ok(file) => return Ok((fresh, file)),
            Err(e) if e.kind() == ErrorKind::AlreadyExists => {}
            Err(e) => return Err(e).context(format_args!("making {fresh}")),
        }
    }
    bail!("making {path}: too many files of an interrupted run stand beside it");
}

impl LaneFile {
    // An empty file.
    pub(crate) fn create(rt: &HostRuntime, path: String) -> anyhow::Result<LaneFile>
        ensures { IfOk result (λ f. Holds256 f.digest []) }
    {
        let (fresh, file) = create_beside(rt, path.as_str())?;
        Ok(LaneFile {
            out: BufWriter::new(rt.alloc(), file)?,
            digest: Sha256::new(),
            path,
            fresh,
        })
    }

    pub(crate) fn path(&self) -> &str {
        self.path.as_str()
    }

    // Hands what is buffered to the system, and waits until it is stored.
    pub(crate) fn store(&mut self) -> anyhow::Result<()>
        ensures { self.new.digest ≡ self.old.digest }
    {
        self.out
            .flush()
            .context(format_args!("writing {}", self.path))?;
        self.out
            .get_ref()
            .sync_all()
            .context(format_args!("writing {}", self.path))
    }

    // Gives the file its name, in place of one of this name.
    pub(crate) fn put_in_place(&self, rt: &HostRuntime) -> anyhow::Result<()> {
        fs::rename(rt, self.fresh.as_str(), self.path.as_str()).context(format_args!(
            "putting {} in place",
            self.path
        ))
    }

    // Removes the file under its fresh name. One that cannot be removed stays, as what made it useless is told already.
    pub(crate) fn discard(&self, rt: &HostRuntime) {
        let _ = fs::remove_file(rt, self.fresh.as_str());
    }

    // Whether a file of the lane's name is there.
    pub(crate) fn has_older(&self, rt: &HostRuntime) -> bool {
        fs::symlink_metadata(rt, self.path.as_str()).is_ok()
    }

    // The file's name, and the digest of what was put in.
    pub(crate) fn finish(self) -> (String, [u8; 32])
        ensures { (m : List ℕ) → Holds256 self.digest m → result.1 ≡ sha256 m }
    {
        (self.path, self.digest.finalize())
    }
}

impl Write for LaneFile {
    // Puts octets behind those that are in.
    fn write(&mut self, octets: &[u8]) -> io::Result<usize>
        ensures bound { WritesAtMost result octets.now }
        ensures digest { (m : List ℕ) → Holds256 self.old.digest m → MatchResult result (λ n. Holds256 self.new.digest (m ++ take n octets.now)) (λ _. self.new.digest ≡ self.old.digest) }
    {
        let n = self.out.write(octets)?;
        self.digest.update(&octets[..n]);
        Ok(n)
    }

    // Hands what is buffered to the system.
    fn flush(&mut self) -> io::Result<()>
        ensures { self.new.digest ≡ self.old.digest }
    {
        self.out.flush()
    }
}
