//! How long a bit time takes: one controller sends the longest frames back to back, and all receive them.
#![tactic(auto)]

mod traffic;

use std::env;
use std::time::Instant;
use traffic::{Tally, drive};

/// As many as a line takes.
const CONTROLLERS: u32 = 16;

/// Some frames, in a moment.
const BIT_TIMES: u32 = 20_000;

fn measure(rt: &HostRuntime, controllers: usize, bit_times: u32) -> anyhow::Result<()> {
    let start = Instant::now(rt)?;
    let Tally {
        frames,
        pages,
        ones,
    } = drive(controllers, bit_times)?;
    let nanoseconds = start.elapsed(rt)?.as_nanos();
    println!(rt; "{controllers} controllers, {bit_times} bit times")?;
    println!(rt; "frames sent {frames}")?;
    println!(rt; "pages made ready {pages}")?;
    println!(rt; "levels 1 {ones}")?;
    if bit_times > 0 {
        let each = nanoseconds / u128::from(bit_times);
        eprintln!(rt; "{each} ns a bit time")?;
    }
    Ok(())
}

/// A number that was given, or the one that stands for it.
fn number_or(text: Option<String>, otherwise: u32) -> anyhow::Result<u32> {
    match text {
        Some(text) => Ok(text.parse()?),
        None => Ok(otherwise),
    }
}

fn main(rt: HostRuntime) -> anyhow::Result<()> {
    let mut args = env::args(&rt)?.skip(1);
    let controllers = number_or(args.next(), CONTROLLERS)?;
    let bit_times = number_or(args.next(), BIT_TIMES)?;
    measure(&rt, controllers as usize, bit_times)
}
