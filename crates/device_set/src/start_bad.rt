use cs_base::NoMemory;
use thiserror::Error;

/// Why the devices of a topology can't be started.
#[derive(Clone, Copy, Debug, PartialEq, Eq, Error)]
pub enum StartBad {
    /// The program of a host is longer than its RAM.
    #[error("the image of component {component} is too long")]
    ImageTooLong { component: u32 },
    /// Memory is wanting.
    #[error("no memory")]
    NoMemory,
}

impl From<NoMemory> for StartBad {
    ghost use Rattle.std.specs.Prelude.{◌≡◌};
    ghost use Rattle.device_set.specs.declared.start_bad.StartBad.TheVariants.{NoMemory};

    ghost from_gives = { λ _ bad. bad ≡ NoMemory };

    fn from(_no_memory: NoMemory) -> StartBad {
        StartBad::NoMemory
    }
}
