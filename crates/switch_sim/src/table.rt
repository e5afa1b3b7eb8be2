ghost use Rattle.std.specs.Prelude.{◌≡◌, ◌<◌, ◌≤◌, [], length, position, nat_le, vec_capacity, IfOk};
ghost use Rattle.switch_sim.specs.Table.{is_of, put_at};
ghost use Rattle.switch_sim.specs.Filed.{bucket_of};

use crate::chains::Chains;
use crate::entry::Entry;
use crate::least_tree::LeastTree;
use cs_base::mac::Mac;
use cs_base::no_memory::NoMemory;
use cs_base::time::Time;
use std::alloc::Global;
use std::marker::Model;

/// How many entries a table has room for.
pub const PLACES: usize = 4096;

/// A prime number, so that each byte of an address counts for its bucket.
const BUCKETS: u64 = 4093;

/// The entries of a switch, each at a place, in memory that is taken at the start.
///
/// The place of an address is found among the places of its bucket, and the first entry that was seen by a time in the
/// tree of the times.
#[derive(Debug, Drop)]
pub struct Table {
    entries: Vec<Entry>,
    chains: Chains,
    seen: LeastTree,
}

impl Model for Table {
    ghost use Rattle.std.specs.Prelude.{List, ◌≤◌, vec_capacity};
    ghost use Rattle.switch_sim.specs.declared.entry.Entry.{Entry};
    ghost use Rattle.switch_sim.specs.Filed.{IsFiled};

    ghost Value = { List Entry };

    ghost view = { λ table. table.entries.items };

    ghost invariant = { λ table. IsFiled table.entries.items table.chains.buckets table.seen
        × (4096 ≤ vec_capacity table.entries) };
}

/// The bucket of an address.
#[tactic(auto, unfolding(crate::specs::Filed::bucket_of))]
fn bucket_of(mac: Mac) -> usize
    ensures bucket { result ≡ bucket_of mac }
    ensures below { result < 4096 }
{
    let [a, b, c, d, e, f] = mac.bytes();
    let high = (u64::from(a) * 256 + u64::from(b)) * 256 + u64::from(c);
    let low = (u64::from(d) * 256 + u64::from(e)) * 256 + u64::from(f);
    ((high * 16_777_216 + low) % BUCKETS) as usize
}

impl Table {
    /// An empty table with all its room.
    pub fn new(alloc: Global) -> Result<Table, NoMemory>
        ensures { IfOk result (λ table. table ≡ []) }
    {
        Ok(Table {
            entries: Vec::with_capacity(alloc, PLACES)?,
            chains: Chains::new(alloc)?,
            seen: LeastTree::new(alloc)?,
        })
    }

    /// A table of these entries, with all its room.
    pub fn with_entries(alloc: Global, entries: &[Entry]) -> Result<Table, NoMemory>
        requires { length entries.now ≤ 4096 }
        ensures { IfOk result (λ table. table ≡ entries.now) }
    {
        let mut table = Table::new(alloc)?;
        for entry in entries {
            table.put(table.len(), *entry);
        }
        Ok(table)
    }

    pub fn len(&self) -> usize
        ensures len { result ≡ length self.now }
        ensures few { result ≤ 4096 }
    {
        self.entries.len()
    }

    pub fn entries(&self) -> &[Entry]
        ensures { result.now ≡ self.now }
    {
        self.entries.as_slice()
    }

    /// The place of an address's entry.
    pub fn place_of(&self, mac: Mac) -> Option<usize>
        ensures { result ≡ position (is_of mac) self.now }
    {
        let mut place = self.chains.first(bucket_of(mac));
        while place < PLACES {
            if mac == self.entries[place].mac {
                return Some(place);
            }
            place = self.chains.next(place);
        }
        None
    }

    /// The first place whose entry was seen at a time or before, in a table that is full.
    pub fn first_seen_by(&self, time: Time) -> Option<usize>
        requires { length self.now ≡ 4096 }
        ensures { result ≡ position (λ e. nat_le e.seen time) self.now }
    {
        self.seen.first_at_most(time.picoseconds())
    }

    /// Puts an entry at a place that has one, or at the end.
    pub fn put(&mut self, place: usize, entry: Entry)
        requires place { place ≤ length self.old }
        requires room { place < 4096 }
        ensures { self.new ≡ put_at place entry self.old }
    {
        self.chains.move_to(place, bucket_of(entry.mac));
        self.seen.set(place, entry.seen.picoseconds());
        put_at(&mut self.entries, place, entry);
    }
}

/// Puts an entry at a place, or at the end, where there is room.
#[tactic(auto, using(std::proofs::lemmas::List::set_split))]
fn put_at(entries: &mut Vec<Entry>, place: usize, entry: Entry)
    requires place { place ≤ length entries.old.items }
    requires room { place < vec_capacity entries.old }
    ensures entries { entries.new.items ≡ put_at place entry entries.old.items }
    ensures room { vec_capacity entries.old ≤ vec_capacity entries.new }
{
    if place < entries.len() {
        entries[place] = entry;
    } else {
        let _pushed = entries.push(entry);
    }
}
