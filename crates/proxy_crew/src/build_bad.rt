ghost use Rattle.std.specs.Prelude.{◌≡◌};

use cs_base::no_memory::NoMemory;
use thiserror::Error;

/// Why a crew can't be made.
#[derive(Clone, Copy, Debug, PartialEq, Eq, Hash, Error)]
pub enum BuildBad {
    /// The wire of a channel can't be had.
    #[error("link lost {channel}")]
    Lost { channel: u32 },
    /// Memory is wanting.
    #[error("no memory")]
    NoMemory,
}

impl From<NoMemory> for BuildBad {
    ghost use Rattle.proxy_crew.specs.declared.build_bad.BuildBad.TheVariants.{NoMemory};

    ghost from_gives = { λ _ bad. bad ≡ NoMemory };

    fn from(_error: NoMemory) -> BuildBad {
        BuildBad::NoMemory
    }
}
