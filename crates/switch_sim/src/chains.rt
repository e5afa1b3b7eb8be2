ghost use Rattle.std.specs.Prelude.{◌≡◌, ◌<◌, ◌≤◌, ◌+◌, ℕ, IfOk, replicate, slice_set, slice_index};
ghost use Rattle.switch_sim.specs.Chains.{IsNextIn, LeadsTo};

use cs_base::no_memory::NoMemory;
use std::alloc::Global;
use std::marker::Model;

const BUCKETS: usize = 4096;

const PLACES: usize = 4096;

/// The bucket of a place that is in none.
const NO_BUCKET: usize = 4096;

/// The places of each bucket in ascending order, each linked to the next.
///
/// The first links lead to the first places of the buckets, and then follows a link for each place, to the next place
/// of its bucket. A link to 4,096 leads nowhere.
#[derive(Debug, Drop)]
pub struct Chains {
    links: Vec<usize>,
    buckets: Vec<usize>,
}

impl Model for Chains {
    ghost use Rattle.switch_sim.specs.Chains.{ChainState, IsChained};

    ghost Value = { ChainState };

    ghost view = { λ c. record { links = c.links.items; buckets = c.buckets.items } };

    ghost invariant = { λ c. IsChained c.links.items c.buckets.items };
}

impl Chains {
    /// Chains in which each place is in no bucket.
    pub fn new(alloc: Global) -> Result<Chains, NoMemory>
        ensures { IfOk result (λ chains. chains.buckets ≡ replicate 4096 4096) }
    {
        Ok(Chains {
            links: vec![in alloc; PLACES; BUCKETS + PLACES]?,
            buckets: vec![in alloc; NO_BUCKET; PLACES]?,
        })
    }

    /// The first place of a bucket; 4,096 where there is none.
    pub fn first(&self, bucket: usize) -> usize
        requires { bucket < 4096 }
        ensures { IsNextIn self.now.buckets bucket 0 result }
    {
        self.links[bucket]
    }

    /// The next place of the bucket that a place is in; 4,096 where there is none.
    pub fn next(&self, place: usize) -> usize
        requires place { place < 4096 }
        requires in_bucket { slice_index self.now.buckets place < 4096 }
        ensures { IsNextIn self.now.buckets (slice_index self.now.buckets place)
            (place + 1) result }
    {
        self.links[BUCKETS + place]
    }

    /// The link of a bucket that leads to a place or past it, and comes before it.
    fn link_to(&self, bucket: usize, place: usize) -> usize
        requires bucket { bucket < 4096 }
        requires place { place < 4096 }
        ensures { (start : ℕ) × LeadsTo self.now.links self.now.buckets bucket place result start }
    {
        let mut link = bucket;
        while self.links[link] < place {
            link = BUCKETS + self.links[link];
        }
        link
    }

    /// Takes a place out of the bucket that it is in.
    fn unlink(&mut self, place: usize)
        requires place { place < 4096 }
        requires in_bucket { slice_index self.old.buckets place < 4096 }
        ensures { self.new.buckets ≡ slice_set self.old.buckets place 4096 }
    {
        let link = self.link_to(self.buckets[place], place);
        self.links[link] = self.links[BUCKETS + place];
        self.buckets[place] = NO_BUCKET;
    }

    /// Puts a place that is in no bucket into one.
    fn link(&mut self, place: usize, bucket: usize)
        requires place { place < 4096 }
        requires bucket { bucket < 4096 }
        requires in_none { 4096 ≤ slice_index self.old.buckets place }
        ensures { self.new.buckets ≡ slice_set self.old.buckets place bucket }
    {
        let link = self.link_to(bucket, place);
        self.links[BUCKETS + place] = self.links[link];
        self.links[link] = place;
        self.buckets[place] = bucket;
    }

    /// Moves a place into a bucket, out of the one that it is in.
    pub fn move_to(&mut self, place: usize, bucket: usize)
        requires place { place < 4096 }
        requires bucket { bucket < 4096 }
        ensures { self.new.buckets ≡ slice_set self.old.buckets place bucket }
    {
        if self.buckets[place] < NO_BUCKET {
            self.unlink(place);
            self.link(place, bucket);
        } else {
            self.link(place, bucket);
        }
    }
}
