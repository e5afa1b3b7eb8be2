//! Who may go on in a mesh that runs to its end.
ghost use Rattle.std.specs.Prelude.{◌≡◌, ◌||◌, true, false};

use crate::way::Way;

/// The components that have a turn in a round: everyone, or those for which something has just become possible. Those are
/// one bit each of a number; components that differ by 64 share a bit.
#[derive(Clone, Copy)]
pub enum Awake {
    Everyone,
    Those(u64),
}

impl Awake {
    ghost use Rattle.mesh_core.specs.Walk.{is_everyone};

    pub fn is_everyone(self) -> bool
        ensures { result ≡ is_everyone self }
    {
        match self {
            Awake::Everyone => true,
            Awake::Those(_) => false,
        }
    }

    pub fn includes(self, component: usize) -> bool
        ensures { is_everyone self ≡ true → result ≡ true }
    {
        match self {
            Awake::Everyone => true,
            Awake::Those(bits) => bits & bit(component) != 0,
        }
    }

    /// Whether either end of a channel has a turn.
    pub fn touches(self, way: Way) -> bool
        ensures { is_everyone self ≡ true → result ≡ true }
    {
        if self.includes(way.from.component as usize) {
            return true;
        }
        self.includes(way.to.component as usize)
    }
}

/// Whether anything has moved, and the components for which something has become possible by that.
#[derive(Clone, Copy)]
pub struct Woken {
    pub moved: bool,
    pub bits: u64,
}

impl Woken {
    pub fn none() -> Woken
        ensures { result.moved ≡ false }
    {
        Woken {
            moved: false,
            bits: 0,
        }
    }

    /// After a component's turn in which something has moved, or nothing.
    pub fn after(self, moved: bool, component: usize) -> Woken
        ensures { result.moved ≡ self.moved || moved }
    {
        if !moved {
            return self;
        }
        Woken {
            moved: true,
            bits: self.bits | bit(component),
        }
    }

    /// After a channel's turn in which something has moved, or nothing: both ends may go on by that.
    pub fn along(self, moved: bool, way: Way) -> Woken
        ensures { result.moved ≡ self.moved || moved }
    {
        if !moved {
            return self;
        }
        Woken {
            moved: true,
            bits: self.bits | bit(way.from.component as usize) | bit(way.to.component as usize),
        }
    }

    pub fn and(self, other: Woken) -> Woken
        ensures { result.moved ≡ self.moved || other.moved }
    {
        Woken {
            moved: self.moved || other.moved,
            bits: self.bits | other.bits,
        }
    }
}

pub fn either(first: bool, second: bool) -> bool
    ensures { result ≡ first || second }
{
    first || second
}

fn bit(component: usize) -> u64 {
    1 << (component % 64)
}
