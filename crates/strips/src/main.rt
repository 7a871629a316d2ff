// Makes strips: sends the blocks of a file or of standard input, and writes the bits of each lane to a file of its own.
#![tactic(auto)]

use anyhow::{Context, bail, ensure};
use arguments::{Arguments, RateName};
use commands::{Sent, StripError, send_strips};
use lane_file::LaneFile;
use lanes::Rate;
use pairs::STRIP_BYTES;
use rates::{Rate200, Rate400, RateShort};
use sender::{Refusal, Sender};
use std::fs;
use std::fs::{File, Metadata};
use std::io::{BufReader, ErrorKind, Read};
use std::os::unix::fs::MetadataExt;

mod arguments;
mod lane_file;

// The name by which the system tells of standard input.
const STDIN: &str = "/dev/stdin";

// Sends what the input has to the lanes' files, and says where it failed.
fn send_all<R: Rate>(
    sender: &mut Sender<R>,
    input: &mut impl Read,
    files: &mut [LaneFile],
) -> anyhow::Result<Sent> {
    match send_strips(sender, input, files) {
        Ok(sent) => Ok(sent),
        Err(StripError::Input(e)) => Err(e).context("reading the blocks"),
        Err(StripError::Lane(lane, e)) => {
            let path = files.get(lane).map_or("a lane", |file| file.path());
            Err(e).context(format_args!("writing {path}"))
        }
        Err(StripError::Lanes) => bail!("there is not a file for each lane"),
    }
}

// Prints a refusal as the last line; the program ends with status 1.
fn refuse(rt: &HostRuntime, refusal: Refusal) -> anyhow::Result<()> {
    println!(rt; "{refusal}")?;
    bail!("refused");
}

// A file, whatever its names: the numbers of its device and of its node there.
#[derive(Clone, Copy, PartialEq, Eq)]
struct FileId {
    device: u64,
    node: u64,
}

impl From<&Metadata> for FileId {
    fn from(metadata: &Metadata) -> FileId {
        FileId {
            device: metadata.dev(),
            node: metadata.ino(),
        }
    }
}

// The file of this name, or the one that a link of this name points to.
fn file_at(rt: &HostRuntime, path: &str) -> anyhow::Result<Option<Metadata>> {
    match fs::metadata(rt, path) {
        Ok(metadata) => Ok(Some(metadata)),
        Err(e) if e.kind() == ErrorKind::NotFound => Ok(None),
        Err(e) => Err(e).context(format_args!("looking at {path}")),
    }
}

// The names of the lanes' files. What has such a name is a file, and not that of the blocks.
fn paths<R: Rate>(
    rt: &HostRuntime,
    prefix: &str,
    blocks: Option<FileId>,
) -> anyhow::Result<Vec<String>> {
    let mut paths = Vec::new(rt.alloc());
    for lane in 0..R::LANES {
        let path = format!(in rt.alloc(); "{prefix}{lane:02}")?;
        if let Some(there) = file_at(rt, path.as_str())? {
            ensure!(there.is_file(), "{path} is there, and is no file");
            ensure!(
                blocks != Some(FileId::from(&there)),
                "{path} has the blocks, and would be written over"
            );
        }
        paths.push(path)?;
    }
    Ok(paths)
}

// Makes the lanes' files under fresh names, puts them into `files`, and sends what the input has.
fn write_lanes<R: Rate>(
    rt: &HostRuntime,
    sender: &mut Sender<R>,
    input: &mut impl Read,
    paths: Vec<String>,
    files: &mut Vec<LaneFile>,
) -> anyhow::Result<Sent> {
    for path in paths {
        files.push(LaneFile::create(rt, path)?)?;
    }
    let sent = send_all(sender, input, files)?;
    for file in files.iter_mut() {
        file.store()?;
    }
    Ok(sent)
}

// Gives the files their names. A refused run replaces no file: it answers false where one is there.
fn put_in_place(rt: &HostRuntime, files: &[LaneFile], refused: bool) -> anyhow::Result<bool> {
    if refused && files.iter().any(|file| file.has_older(rt)) {
        return Ok(false);
    }
    for file in files {
        file.put_in_place(rt)?;
    }
    Ok(true)
}

// Sends what the input has at a rate, and prints what was sent.
fn make_strips<R: Rate>(
    rt: &HostRuntime,
    arguments: &Arguments,
    input: &mut impl Read,
    blocks: Option<FileId>,
) -> anyhow::Result<()> {
    let mut sender = match Sender::<R>::new(arguments.scramble, arguments.pad, arguments.status) {
        Ok(sender) => sender,
        Err(refusal) => return refuse(rt, refusal),
    };
    let paths = paths::<R>(rt, arguments.prefix.as_str(), blocks)?;
    let mut files = Vec::new(rt.alloc());
    let outcome = write_lanes(rt, &mut sender, input, paths, &mut files).and_then(|sent| {
        Ok((
            sent,
            put_in_place(rt, files.as_slice(), sent.refused.is_some())?,
        ))
    });
    let placed = matches!(&outcome, Ok((_, true)));
    if !placed {
        for file in &files {
            file.discard(rt);
        }
    }
    let (sent, _) = outcome?;
    let bits = sent.pairs.saturating_mul(8 * STRIP_BYTES / R::LANES);
    println!(rt; "pairs {}", sent.pairs)?;
    println!(rt; "blocks {}", sent.blocks)?;
    println!(rt; "bits a lane {bits}")?;
    for file in files.into_iter().filter(|_| placed) {
        // As the program sha256sum prints a file.
        let (path, digest) = file.finish();
        let text = hex::encode(rt.alloc(), &digest)?;
        println!(rt; "{text}  {path}")?;
    }
    sent.refused.map_or(Ok(()), |refusal| refuse(rt, refusal))
}

fn make_from(
    rt: &HostRuntime,
    arguments: &Arguments,
    input: &mut impl Read,
    blocks: Option<FileId>,
) -> anyhow::Result<()> {
    match arguments.rate {
        RateName::Rate200 => make_strips::<Rate200>(rt, arguments, input, blocks),
        RateName::Rate400 => make_strips::<Rate400>(rt, arguments, input, blocks),
        RateName::Short => make_strips::<RateShort>(rt, arguments, input, blocks),
    }
}

fn main(rt: HostRuntime) -> anyhow::Result<()> {
    let arguments = Arguments::read(&rt)?;
    match &arguments.blocks {
        Some(path) => {
            let file = File::open(&rt, path.as_str()).context(format_args!("opening {path}"))?;
            let id = FileId::from(&file.metadata()?);
            let mut input = BufReader::new(rt.alloc(), file)?;
            make_from(&rt, &arguments, &mut input, Some(id))
        }
        None => {
            // Where the system tells nothing of standard input, reading it tells why.
            let id = fs::metadata(&rt, STDIN).ok().map(|m| FileId::from(&m));
            let mut input = BufReader::new(rt.alloc(), rt.stdin())?;
            make_from(&rt, &arguments, &mut input, id)
        }
    }
}
