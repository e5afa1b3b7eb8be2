ghost use Rattle.std.specs.Prelude.{◌≡◌, ◌++◌, ◌∷◌, [], List, ℕ, length, take, IfOk, OnOk, OnErr, IsTrue, ◌↔◌, reverse, IfNone};
ghost use Rattle.std.specs.Option.{option_to_list};

use crate::no_memory::NoMemory;
use std::alloc::Global;
use std::marker::Model;

/// A growable list that contracts see as the plain list of its elements.
#[derive(Clone, Debug, Drop)]
pub struct Items<T> {
    items: Vec<T>,
}

/// A growable list of bytes.
pub type Octets = Items<u8>;

impl<T> Model for Items<T> {
    ghost use Rattle.std.specs.Prelude.{List};

    ghost Value = { List T };

    ghost view = { λ list. list.items.items };
}

impl<T: PartialEq> PartialEq for Items<T> {
    ghost use Rattle.std.specs.Cmp.Lexicographic.{pointwise, lists_per};

    ghost eq = { pointwise T.eq };

    ghost laws = { lists_per T.laws };

    fn eq(&self, other: &Items<T>) -> bool {
        self.items == other.items
    }
}

impl<T> Items<T> {
    /// An empty list, which has taken no memory yet.
    pub fn new(alloc: Global) -> Items<T>
        ensures { result ≡ [] }
    {
        Items {
            items: Vec::new(alloc),
        }
    }

    /// The list of a vector's elements.
    pub fn from_vec(items: Vec<T>) -> Items<T>
        ensures { result ≡ items.items }
    {
        Items { items }
    }

    /// Gives the vector back.
    pub fn into_vec(self) -> Vec<T>
        ensures { result.items ≡ self }
    {
        let Items { items } = self;
        items
    }

    pub fn as_slice(&self) -> &[T]
        ensures { result.now ≡ self.now }
    {
        self.items.as_slice()
    }

    pub fn len(&self) -> usize
        ensures { result ≡ length self.now }
    {
        self.items.len()
    }

    pub fn is_empty(&self) -> bool
        ensures { IsTrue result ↔ (self.now ≡ []) }
    {
        self.items.is_empty()
    }

    /// Adds an element at the end. Where memory is wanting, the list stays as it was, and the element is dropped.
    pub fn push(&mut self, item: T) -> Result<(), NoMemory>
    where
        T: Drop,
        ensures ok { OnOk result (self.new ≡ self.old ++ item ∷ []) }
        ensures err { OnErr result (self.new ≡ self.old) }
    {
        self.items.push(item)?;
        Ok(())
    }

    /// Takes the last element out.
    pub fn pop(&mut self) -> Option<T>
        ensures last { self.old ≡ self.new ++ option_to_list result }
        ensures none { IfNone result (self.old ≡ []) }
    {
        self.items.pop()
    }

    /// Turns the order round.
    pub fn reverse(&mut self)
        ensures { self.new ≡ reverse self.old }
    {
        self.items.as_mut_slice().reverse();
    }

    /// Moves all elements of another list to the end. Where memory is wanting, both stay as they were.
    pub fn move_from(&mut self, other: &mut Items<T>) -> Result<(), NoMemory>
        ensures ok { OnOk result (self.new ≡ self.old ++ other.old) }
        ensures emptied { OnOk result (other.new ≡ []) }
        ensures err { OnErr result (self.new ≡ self.old) }
        ensures kept { OnErr result (other.new ≡ other.old) }
    {
        self.items.append(&mut other.items)?;
        Ok(())
    }

    /// Forgets all elements but the first `len`, and keeps their room.
    pub fn truncate(&mut self, len: usize)
    where
        T: Drop,
        ensures { self.new ≡ take len self.old }
    {
        self.items.truncate(len);
    }

    /// Forgets all elements and keeps their room.
    pub fn clear(&mut self)
    where
        T: Drop,
        ensures { self.new ≡ [] }
    {
        self.items.clear();
    }

    /// The allocator that the list was made with.
    pub fn alloc(&self) -> Global {
        *self.items.allocator()
    }
}

impl Items<u8> {
    /// A copy of these bytes.
    pub fn from_slice(alloc: Global, bytes: &[u8]) -> Result<Octets, NoMemory>
        ensures { IfOk result (λ octets. octets ≡ bytes.now) }
    {
        Ok(Items {
            items: Vec::from_slice(alloc, bytes)?,
        })
    }

    /// Appends bytes at the end. Where memory is wanting, the list stays as it was.
    pub fn append(&mut self, bytes: &[u8]) -> Result<(), NoMemory>
        ensures ok { OnOk result (self.new ≡ self.old ++ bytes.now) }
        ensures err { OnErr result (self.new ≡ self.old) }
    {
        self.items.extend_from_slice(bytes)?;
        Ok(())
    }

    /// The same bytes once more.
    pub fn copy(&self) -> Result<Octets, NoMemory>
        ensures { IfOk result (λ copied. copied ≡ self.now) }
    {
        Items::from_slice(self.alloc(), self.items.as_slice())
    }
}
