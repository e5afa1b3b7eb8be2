use crate::line::LineBad;
use cs_base::NoMemory;

/// Why a line's statement isn't there.
#[derive(Clone, Copy, Debug)]
pub(crate) enum Stop {
    Bad(LineBad),
    NoMemory,
}

impl From<LineBad> for Stop {
    ghost use Rattle.std.specs.Prelude.{◌≡◌};
    ghost use Rattle.asm_syntax.specs.declared.stop.Stop.TheVariants.{Bad};

    ghost from_gives = { λ bad stop. stop ≡ Bad bad };

    fn from(bad: LineBad) -> Stop {
        Stop::Bad(bad)
    }
}

impl From<NoMemory> for Stop {
    ghost use Rattle.std.specs.Prelude.{◌≡◌};
    ghost use Rattle.asm_syntax.specs.declared.stop.Stop.TheVariants.{NoMemory};

    ghost from_gives = { λ _ stop. stop ≡ NoMemory };

    fn from(_error: NoMemory) -> Stop {
        Stop::NoMemory
    }
}
