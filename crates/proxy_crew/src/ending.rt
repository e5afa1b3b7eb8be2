//! What is left of channels that go by proxy.
ghost use Rattle.std.specs.Prelude.{◌≡◌};
ghost use Rattle.proxy_crew.specs.Ending.{wire_end_of};

use cs_base::wire_end::WireEnd;
use proxy_members::{InMember, OutMember};
use slot_queue::{Consumer, Producer};

/// What is left of a channel and the sides of its queues that its two ends had. Takes no memory.
pub fn wire_end<'q, O, I>(
    sending: OutMember<'q, O>,
    receiving: InMember<'q, I>,
) -> (WireEnd<O, I>, Consumer, Producer)
    ensures end { result.0 ≡ wire_end_of sending.entry receiving.entry }
    ensures near { result.1 ≡ sending.entry.near.seat }
    ensures far { result.2 ≡ receiving.entry.far.seat }
{
    let channel = sending.channel();
    let (out, sent, consumer) = sending.finish();
    let (wire, got, producer) = receiving.finish();
    let end = WireEnd {
        channel,
        out,
        wire,
        sent,
        got,
    };
    (end, consumer, producer)
}
