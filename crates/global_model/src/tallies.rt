ghost use Rattle.std.specs.Prelude.{◌≡◌, ◌≤◌, ◌<◌, ◌^◌, All, map, IfOk};
ghost use Rattle.cs_base.specs.Plan.{IsWithinLimits};
ghost use Rattle.global_model.specs.Tally.{first_tallies, HasSent, count_before};

use crate::tally::Tally;
use cs_base::items::Items;
use cs_base::link::Link;
use cs_base::no_memory::NoMemory;
use cs_base::time::Time;
use device_api::Count;
use std::alloc::Global;
use std::marker::Model;

/// What went on each channel so far, by the channels' numbers. After `new` a send asks for no memory.
#[derive(Debug, Drop)]
pub struct Tallies {
    channels: Vec<Tally>,
}

impl Model for Tallies {
    ghost use Rattle.std.specs.Prelude.{List};
    ghost use Rattle.global_model.specs.Tally.{TallyState};

    ghost Value = { List TallyState };

    ghost view = { λ t. t.channels.items };
}

impl Tallies {
    /// The channels of these links, on which nothing went yet.
    pub fn new(alloc: Global, links: &[Link]) -> Result<Tallies, NoMemory>
        requires { All IsWithinLimits links.now }
        ensures { IfOk result (λ tallies. tallies ≡ first_tallies links.now) }
    {
        let mut channels = Vec::new(alloc);
        for link in links {
            channels.push(Tally::new(link.interval))?;
            channels.push(Tally::new(link.interval))?;
        }
        Ok(Tallies { channels })
    }

    /// Counts a send on a channel at a time. It does nothing where there is no such channel.
    pub fn send(&mut self, channel: usize, t: Time)
        requires { t < 10 ^ 15 }
        ensures { HasSent channel t self.old self.new }
    {
        if channel < self.channels.len() {
            self.channels[channel].send(t);
        }
    }

    /// What went on each channel before a time, in which no send is missing.
    pub fn counts_before(&self, alloc: Global, time: Time) -> Result<Items<Count>, NoMemory>
        requires { time ≤ 10 ^ 15 }
        ensures { IfOk result (λ counts. counts ≡ map (count_before time) self.now) }
    {
        let mut counts = Items::new(alloc);
        for tally in &self.channels {
            counts.push(tally.count_before(time))?;
        }
        Ok(counts)
    }
}
