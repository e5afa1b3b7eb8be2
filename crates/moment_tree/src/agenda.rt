ghost use Rattle.std.specs.Prelude.{◌≡◌, ◌≢◌, ◌≤◌, ◌%◌, All, ◌<◌, ◌^◌, Some, None, IfOk, IfSome, IfNone, replicate, slice_get, slice_set, slice_index_or};
ghost use Rattle.moment_tree.specs.Dues.{sooner, IsFirst, IsFirstBut, IsAlone};
ghost use Rattle.moment_tree.specs.Keys.{never, due_of};

use crate::keys::{NEVER, key_of, least_beside, place};
use cs_base::no_memory::NoMemory;
use cs_base::time::Time;
use std::alloc::Global;
use std::marker::Model;

/// A time at which something may happen for a component.
#[derive(Clone, Copy, Debug, PartialEq, Eq)]
pub struct Moment {
    pub at: Time,
    pub component: u32,
}

/// When each of some components has something to do next; None for one that has nothing to do. Times are below
/// 2^57 picoseconds. Only `new` asks for memory.
#[derive(Debug, Drop)]
pub struct Agenda {
    components: usize,
    keys: Vec<u64>,
}

impl Model for Agenda {
    ghost use Rattle.std.specs.Prelude.{ℕ, List, Option, map, drop};
    ghost use Rattle.moment_tree.specs.Keys.{due_of, IsTree};

    ghost Value = { List (Option ℕ) };

    ghost view = { λ a. map due_of (drop a.components a.keys.items) };

    ghost invariant = { λ a. IsTree a.components a.keys.items };
}

impl Agenda {
    /// The agenda of 1 to 64 components that have nothing to do.
    pub fn new(alloc: Global, components: usize) -> Result<Agenda, NoMemory>
        requires some { 1 ≤ components }
        requires few { components ≤ 64 }
        ensures { IfOk result (λ agenda. agenda ≡ replicate components None) }
    {
        let keys = Vec::from_elem(alloc, NEVER, 2 * components)?;
        Ok(Agenda { components, keys })
    }

    /// Says when a component has something to do next. It does nothing where there is no such component.
    pub fn set(&mut self, component: u32, due: Option<Time>)
        requires { IfSome due (λ at. at < 2 ^ 57) }
        ensures { self.new ≡ slice_set self.old component due }
    {
        let index = component as usize;
        if index < self.components {
            let key = key_of(component, due);
            place(self.keys.as_mut_slice(), self.components, index, key);
        }
    }

    /// Says that a component has something to do at a time, and maybe sooner.
    pub fn note(&mut self, component: u32, at: Time)
        requires { at < 2 ^ 57 }
        ensures { self.new ≡
            slice_set self.old component (Some (sooner at (slice_index_or self.old component None))) }
    {
        let index = component as usize;
        if index < self.components {
            let key = key_of(component, Some(at));
            if key < self.keys[self.components + index] {
                place(self.keys.as_mut_slice(), self.components, index, key);
            }
        }
    }

    /// The first moment: the least of the times, and of the components with that time the least.
    pub fn first(&self) -> Option<Moment>
        ensures there { IfSome result (λ m. slice_get self.now m.component ≡ Some (Some m.at)) }
        ensures first { IfSome result (λ m. IsFirst m.at m.component self.now) }
        ensures none { IfNone result (All (λ due. due ≡ None) self.now) }
    {
        entry(self.keys[1])
    }

    /// The first moment of the other components.
    pub fn first_but(&self, component: u32) -> Option<Moment>
        ensures there { IfSome result (λ m. slice_get self.now m.component ≡ Some (Some m.at)) }
        ensures other { IfSome result (λ m. m.component ≢ component) }
        ensures first { IfSome result (λ m. IsFirstBut component m.at m.component self.now) }
        ensures none { IfNone result (IsAlone component self.now) }
    {
        let index = component as usize;
        if index < self.components {
            return entry(least_beside(self.keys.as_slice(), self.components, index));
        }
        entry(self.keys[1])
    }
}

/// The moment of a key, if it is one.
fn entry(key: u64) -> Option<Moment>
    ensures some { IfSome result (λ m. (due_of key ≡ Some m.at) × (m.component ≡ key % 64)) }
    ensures none { IfNone result (key ≡ never) }
{
    if key == NEVER {
        return None;
    }
    Some(Moment {
        at: Time(key / 64),
        component: (key % 64) as u32,
    })
}
