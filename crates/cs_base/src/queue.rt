ghost use Rattle.std.specs.Prelude.{◌≡◌, ◌+◌, ◌++◌, ◌∷◌, ◌≤◌, ◌<◌, [], length, IsTrue, ◌↔◌, IfSome, IfNone, IsOk, OnOk, OnErr};
ghost use Rattle.std.specs.Slice.{IsItemAt};

use crate::no_memory::NoMemory;
use std::alloc::Global;
use std::collections::VecDeque;
use std::marker::Model;

/// A queue: elements leave it in the order in which they came. It keeps its room.
#[derive(Debug, Drop)]
pub struct Queue<T> {
    items: VecDeque<T>,
}

impl<T> Model for Queue<T> {
    ghost use Rattle.std.specs.Prelude.{◌-◌};
    ghost use Rattle.std.specs.VecDeque.{deque_len, deque_capacity};
    ghost use Rattle.cs_base.specs.Queues.{Held};

    ghost Value = { Held T };

    ghost view = { λ queue. record {
      items = queue.items.items;
      spare = deque_capacity queue.items - deque_len queue.items;
    } };
}

impl<T> Queue<T> {
    /// An empty queue, which has taken no memory yet.
    pub fn new(alloc: Global) -> Queue<T>
        ensures { result.items ≡ [] }
    {
        Queue {
            items: VecDeque::new(alloc),
        }
    }

    pub fn len(&self) -> usize
        ensures { result ≡ length self.now.items }
    {
        self.items.len()
    }

    pub fn is_empty(&self) -> bool
        ensures { IsTrue result ↔ (self.now.items ≡ []) }
    {
        self.items.is_empty()
    }

    /// The element that is next out.
    pub fn first(&self) -> Option<&T>
        ensures { IsItemAt self.now.items 0 result }
    {
        self.items.front()
    }

    /// Makes room for so many more elements.
    pub fn reserve(&mut self, more: usize) -> Result<(), NoMemory>
        ensures items { self.new.items ≡ self.old.items }
        ensures room { self.old.spare ≤ self.new.spare }
        ensures ok { OnOk result (more ≤ self.new.spare) }
    {
        self.items.reserve(more)?;
        Ok(())
    }

    /// Adds an element at the end. Where memory is wanting, the queue holds what it held, and the element is dropped;
    /// where there is room, no memory is asked for.
    pub fn push(&mut self, item: T) -> Result<(), NoMemory>
    where
        T: Drop,
        ensures ok { OnOk result (self.new.items ≡ self.old.items ++ item ∷ []) }
        ensures err { OnErr result (self.new.items ≡ self.old.items) }
        ensures succeeds { 0 < self.old.spare → IsOk result }
        ensures room { self.old.spare ≤ self.new.spare + 1 }
    {
        self.items.push_back(item)?;
        Ok(())
    }

    /// Adds an element at the end, where there is room.
    pub fn push_reserved(&mut self, item: T)
        requires room { 0 < self.old.spare }
        ensures items { self.new.items ≡ self.old.items ++ item ∷ [] }
        ensures room { self.new.spare + 1 ≡ self.old.spare }
    {
        self.items.push_back_reserved(item);
    }

    /// Puts an element before all others, where there is room.
    pub fn push_first_reserved(&mut self, item: T)
        requires room { 0 < self.old.spare }
        ensures items { self.new.items ≡ item ∷ self.old.items }
        ensures room { self.new.spare + 1 ≡ self.old.spare }
    {
        self.items.push_front_reserved(item);
    }

    /// Takes the element out that is next.
    pub fn pop(&mut self) -> Option<T>
        ensures first { IfSome result (λ item. self.old.items ≡ item ∷ self.new.items) }
        ensures room { IfSome result (λ _. self.new.spare ≡ self.old.spare + 1) }
        ensures none { IfNone result (self.old.items ≡ []) }
        ensures unchanged { IfNone result (self.new ≡ self.old) }
    {
        self.items.pop_front()
    }
}
