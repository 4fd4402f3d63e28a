//! One cut order, followed from the nesting screen on. Each line that is printed is what the code computed.
#![tactic(auto)]

mod drawing;
mod loading;
mod screen;
mod story;
mod tally;

use loading::Hosts;
use order::deliver;
use screen::{ORDER, PLANNER, SPREADER};
use story::Story;

fn follow(rt: &HostRuntime) -> anyhow::Result<()> {
    println!(rt; "A cut order, followed from the nesting screen on.")?;
    let heap = rt.alloc();
    let message = ORDER.message(heap, PLANNER.address, SPREADER.address)?;
    let story = Story::new(rt, &message)?;
    story.tell_order(&ORDER)?;
    story.tell_frame()?;
    Hosts::new(rt).tell_loading(&message)?;
    let delivery = deliver(heap, &message)?;
    story.tell_levels(&delivery)?;
    story.tell_arbitration()?;
    story.tell_reading(&delivery)?;
    story.tell_filters()?;
    story.tell_bursts()?;
    story.tell_all_bursts(delivery.levels.len())?;
    story.tell_promises()?;
    Ok(())
}

fn main(rt: HostRuntime) -> anyhow::Result<()> {
    follow(&rt)
}
