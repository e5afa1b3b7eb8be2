use cs_base::no_memory::NoMemory;
use thiserror::Error;

/// Why parts make no device.
#[derive(Clone, Copy, Debug, PartialEq, Eq, Error)]
pub enum PartsBad {
    /// No device of the configuration can stand so at that time.
    #[error("invalid")]
    Invalid,
    /// Memory is wanting.
    #[error("no memory")]
    NoMemory,
}

impl From<NoMemory> for PartsBad {
    ghost use Rattle.std.specs.Prelude.{◌≡◌};
    ghost use Rattle.device_api.specs.declared.parts_bad.PartsBad.TheVariants as bad;

    ghost from_gives = { λ _ found. found ≡ bad.NoMemory };

    fn from(_no_memory: NoMemory) -> PartsBad {
        PartsBad::NoMemory
    }
}
