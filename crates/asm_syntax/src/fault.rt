ghost use Rattle.std.specs.Prelude.{◌≡◌};
ghost use Rattle.asm_syntax.specs.Faults.{fault_number, both};

use crate::line::LineBad;

impl LineBad {
    /// Its number: of several faults of a line the one of the least number is answered.
    fn number(self) -> u8
        ensures { result ≡ fault_number self }
    {
        match self {
            LineBad::BadLine => 1,
            LineBad::UnknownWord => 2,
            LineBad::BadRegister => 3,
            LineBad::OutOfRange { .. } => 4,
        }
    }
}

/// Both parts of a line, or the fault of the least number among theirs.
pub(crate) fn both<A: Drop, B: Drop>(
    a: Result<A, LineBad>,
    b: Result<B, LineBad>,
) -> Result<(A, B), LineBad>
    ensures { result ≡ both a b }
{
    match (a, b) {
        (Ok(a), Ok(b)) => Ok((a, b)),
        (Ok(_), Err(bad)) | (Err(bad), Ok(_)) => Err(bad),
        (Err(bad), Err(other)) => Err(if bad.number() <= other.number() {
            bad
        } else {
            other
        }),
    }
}
