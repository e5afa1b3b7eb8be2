ghost use Rattle.std.specs.Prelude.{◌≡◌};
ghost use Rattle.ram_map.specs.Places.{bar_place};

use crate::place::Place;

/// The bytes from one BAR to the next.
pub(crate) const BAR_STEP: u32 = 0x10_0000;

const BAR_LEN: u32 = 0x2_0000;

// Between two BARs there is nothing.
pub(crate) fn bar(offset: u32) -> Place
    ensures { result ≡ bar_place offset }
{
    if offset % BAR_STEP >= BAR_LEN {
        return Place::Nowhere;
    }
    Place::Bar {
        port: offset / BAR_STEP,
        offset: offset % BAR_STEP,
    }
}
