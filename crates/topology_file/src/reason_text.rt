ghost use Rattle.std.specs.Prelude.{◌≡◌};
ghost use Rattle.topology_file.specs.Reasons.{number_of, reason_text, entry_word, entry_number, lesser};

use crate::reason::{Entry, TopoBad, TopoReason};
use cs_base::NoMemory;

impl TopoReason {
    /// Its number: of two faults of one entry the lesser one is answered.
    pub fn number(self) -> u8
        ensures { result ≡ number_of self }
    {
        match self {
            TopoReason::UnknownKey => 2,
            TopoReason::Missing => 3,
            TopoReason::WrongType => 4,
            TopoReason::Range => 5,
            TopoReason::BadName => 6,
            TopoReason::NameTwice => 7,
            TopoReason::NoSuchComponent => 8,
            TopoReason::PortTwice => 9,
            TopoReason::PortMissing => 10,
            TopoReason::KindsDoNotJoin => 11,
            TopoReason::IntervalPastLatency => 12,
            TopoReason::BadMac => 13,
            TopoReason::TooMany => 14,
            TopoReason::PortFree => 15,
        }
    }

    /// How a refusal names it.
    pub fn text(self) -> &'static str
        ensures { result.now ≡ reason_text self }
    {
        match self {
            TopoReason::UnknownKey => "unknown key",
            TopoReason::Missing => "missing key",
            TopoReason::WrongType => "wrong type",
            TopoReason::Range => "out of range",
            TopoReason::BadName => "bad name",
            TopoReason::NameTwice => "name twice",
            TopoReason::NoSuchComponent => "no such component",
            TopoReason::PortTwice => "port twice",
            TopoReason::PortMissing => "port missing",
            TopoReason::KindsDoNotJoin => "kinds do not join",
            TopoReason::IntervalPastLatency => "interval past latency",
            TopoReason::BadMac => "bad mac",
            TopoReason::TooMany => "too many",
            TopoReason::PortFree => "port in no link",
        }
    }
}

impl Entry {
    /// How a refusal names the part: `top`, or `component` or `link` with a number behind it.
    pub fn word(self) -> &'static str
        ensures { result.now ≡ entry_word self }
    {
        match self {
            Entry::Top => "top",
            Entry::Component(_) => "component",
            Entry::Link(_) => "link",
        }
    }

    /// The number of the component or link; None for the document itself.
    pub fn number(self) -> Option<u32>
        ensures { result ≡ entry_number self }
    {
        match self {
            Entry::Top => None,
            Entry::Component(number) | Entry::Link(number) => Some(number),
        }
    }
}

impl From<NoMemory> for TopoBad {
    ghost use Rattle.topology_file.specs.declared.reason.TopoBad.TheVariants.{NoMemory};

    ghost from_gives = { λ _ bad. bad ≡ NoMemory };

    fn from(_error: NoMemory) -> TopoBad {
        TopoBad::NoMemory
    }
}

/// Of two faults that may be there, the one of the lesser number.
pub(crate) fn lesser(a: Option<TopoReason>, b: Option<TopoReason>) -> Option<TopoReason>
    ensures { result ≡ lesser a b }
{
    match (a, b) {
        (None, other) => other,
        (Some(reason), None) => Some(reason),
        (Some(reason), Some(other)) => {
            if reason.number() <= other.number() {
                Some(reason)
            } else {
                Some(other)
            }
        }
    }
}
