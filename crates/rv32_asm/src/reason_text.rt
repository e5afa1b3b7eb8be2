ghost use Rattle.std.specs.Prelude.{◌≡◌};
ghost use Rattle.rv32_asm.specs.Reasons.{reason_text};

use crate::reason::{AsmBad, AsmReason};
use cs_base::NoMemory;

impl AsmReason {
    /// How a refusal names it.
    pub fn text(self) -> &'static [u8]
        ensures { result.now ≡ reason_text self }
    {
        match self {
            AsmReason::BadLine => b"bad line",
            AsmReason::UnknownWord => b"unknown word",
            AsmReason::BadRegister => b"bad register",
            AsmReason::Range => b"range",
            AsmReason::LabelTwice => b"label twice",
            AsmReason::LabelMissing => b"label missing",
            AsmReason::TooLong => b"too long",
        }
    }
}

impl From<NoMemory> for AsmBad {
    ghost use Rattle.rv32_asm.specs.declared.reason.AsmBad.TheVariants.{NoMemory};

    ghost from_gives = { λ _ bad. bad ≡ NoMemory };

    fn from(_error: NoMemory) -> AsmBad {
        AsmBad::NoMemory
    }
}
