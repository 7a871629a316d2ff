// Hunts over strips of unknown order: reads a file for each position, and prints the setbacks, the rate, the tick on which
// the receiver was ready, and the lane and the skew of each position.
#![tactic(auto)]

use anyhow::bail;
use arguments::{Arguments, RateName};
use code::WatchEngine;
use lanes::Rate;
use lines::{position_line, setback_line};
use rates::{Rate200, Rate400, RateShort};
use receiver::{Hunting, Told};
use strips::Strips;
use words::words_of;

mod arguments;
mod lines;
mod strips;
mod words;

// A receiver looks at no codeword before it is ready, so any engine will do.
type Hunter<R> = Hunting<R, WatchEngine>;

fn hunter<R: Rate>() -> Hunter<R> {
    Hunting::new(WatchEngine::new())
}

// Which of the rates of eight lanes is ready first, if one is.
fn first_of_eight(rt: &HostRuntime, paths: &[String]) -> anyhow::Result<Option<RateName>> {
    let mut strips = Strips::open(rt, paths)?;
    let mut short = hunter::<RateShort>();
    let mut long = hunter::<Rate200>();
    for _ in 0u64.. {
        let Some(bytes) = strips.next()? else { break };
        for word in words_of(bytes) {
            if short.tick(word)? == Told::Ready {
                return Ok(Some(RateName::Short));
            }
            if long.tick(word)? == Told::Ready {
                return Ok(Some(RateName::Rate200));
            }
        }
    }
    Ok(None)
}

// Ticks a receiver until it is ready or a file ends, and prints its setbacks.
fn tick_all<R: Rate>(
    rt: &HostRuntime,
    receiver: &mut Hunter<R>,
    strips: &mut Strips,
) -> anyhow::Result<()> {
    for _ in 0u64.. {
        let Some(bytes) = strips.next()? else { break };
        for word in words_of(bytes) {
            match receiver.tick(word)? {
                Told::Quiet => {}
                Told::Ready => return Ok(()),
                Told::Setback(fault) => {
                    let line = setback_line(rt.alloc(), fault)?;
                    print!(rt; "{line}")?;
                }
            }
        }
    }
    Ok(())
}

// Prints the lane and the skew of each position of a receiver that is ready.
fn print_positions<R: Rate>(rt: &HostRuntime, receiver: &Hunter<R>) -> anyhow::Result<()> {
    for position in 0..R::LANES {
        if let (Some(lane), Some(skew)) = (receiver.lane(position), receiver.skew(position)) {
            let line = position_line(rt.alloc(), position, lane, skew)?;
            print!(rt; "{line}")?;
        }
    }
    Ok(())
}

// Hunts at a rate, and prints what is told. Whether it was ready.
fn hunt<R: Rate>(rt: &HostRuntime, name: RateName, paths: &[String]) -> anyhow::Result<bool> {
    let mut strips = Strips::open(rt, paths)?;
    let mut receiver = hunter::<R>();
    tick_all(rt, &mut receiver, &mut strips)?;
    println!(rt; "rate {}", name.name())?;
    let ticks = receiver.accepted_ticks();
    if receiver.is_ready() {
        println!(rt; "ready {ticks}")?;
        print_positions(rt, &receiver)?;
        return Ok(true);
    }
    println!(rt; "never ready after {ticks} ticks")?;
    if let Some(path) = strips.shortest() {
        eprintln!(rt; "the files differ in length: {path} ended first")?;
    }
    Ok(false)
}

fn hunt_at(rt: &HostRuntime, name: RateName, paths: &[String]) -> anyhow::Result<bool> {
    match name {
        RateName::Rate200 => hunt::<Rate200>(rt, name, paths),
        RateName::Rate400 => hunt::<Rate400>(rt, name, paths),
        RateName::Short => hunt::<RateShort>(rt, name, paths),
    }
}

// The rate of a set: the one that is asked for, the only one of sixteen lanes, or the one of eight that is ready first.
fn rate_of(rt: &HostRuntime, arguments: &Arguments) -> anyhow::Result<Option<RateName>> {
    if arguments.rate.is_some() {
        return Ok(arguments.rate);
    }
    if arguments.paths.len() == 16 {
        return Ok(Some(RateName::Rate400));
    }
    first_of_eight(rt, arguments.paths.as_slice())
}

fn main(rt: HostRuntime) -> anyhow::Result<()> {
    let arguments = Arguments::read(&rt)?;
    let paths = arguments.paths.as_slice();
    let ready = match rate_of(&rt, &arguments)? {
        Some(name) => hunt_at(&rt, name, paths)?,
        None => {
            // At most one of them is the set's, and which is not known: what each was told is printed.
            hunt_at(&rt, RateName::Rate200, paths)?;
            hunt_at(&rt, RateName::Short, paths)?;
            false
        }
    };
    if !ready {
        bail!("never ready");
    }
    Ok(())
}
