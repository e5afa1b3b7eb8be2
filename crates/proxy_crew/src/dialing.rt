//! The ends of channels that go by proxy, over wires that are dialed once each.
ghost use Rattle.std.specs.Prelude.{◌≡◌, [], length, map, All, IfOk};
ghost use Rattle.slot_queue.specs.declared.ends.TxEnd.{TxEnd as Tx};
ghost use Rattle.slot_queue.specs.declared.ends.RxEnd.{RxEnd as Rx};
ghost use Rattle.proxy_crew.specs.Dialing.{DialTells, OneTells, IsDialed, AreDialed, channel_of, kind_of};

use crate::build_bad::BuildBad;
use crate::faults::bad_of;
use crate::proxied::Proxied;
use crate::route::Route;
use cs_base::dialer::Dialer;
use cs_base::items::Items;
use cs_base::wires::{WireIn, WireOut};
use proxy_members::{InMember, OutMember};
use slot_queue::{RxEnd, TxEnd};
use std::alloc::Global;

/// Both ends of a channel, over wires that are dialed once. The queues' ends are unused.
fn dial_one<'q, O: WireOut, I: WireIn, D: Dialer<Out = O, In = I>>(
    alloc: Global,
    route: Route,
    near: RxEnd<'q>,
    far: TxEnd<'q>,
    dial: &mut D,
) -> Result<Proxied<'q, O, I>, BuildBad>
    requires near { near.seat.received ≡ [] }
    requires far { far.seat.sent ≡ [] }
    requires kind { far.seat.kind ≡ route.kind }
    ensures made { IfOk result (IsDialed O.seen I.seen route near.entry far.entry) }
    ensures told { OneTells result route.channel (D.seen dial.old) (D.seen dial.new) }
{
    match dial.dial(alloc, route.channel) {
        Ok((out, wire)) => Ok(Proxied {
            route,
            sending: OutMember::new(alloc, route.channel, out, near),
            receiving: InMember::new(alloc, route.channel, route.kind, wire, far),
        }),
        Err(bad) => Err(bad_of(route.channel, bad)),
    }
}

/// Both ends of each of these channels, over wires that are dialed once each, in this order. Each channel has the unused
/// end of its near queue and that of its far queue at its place in these lists. `Lost` comes only where the dialer's count of
/// faults rose, and names the channel that was dialed last.
pub fn dial_all<'q, O: WireOut + Drop, I: WireIn + Drop, D: Dialer<Out = O, In = I>>(
    alloc: Global,
    routes: &[Route],
    near: Vec<RxEnd<'q>>,
    far: Vec<TxEnd<'q>>,
    dial: &mut D,
) -> Result<Vec<Proxied<'q, O, I>>, BuildBad>
    requires near { All (λ (end : Rx). end.seat.received ≡ []) near.items }
    requires far { All (λ (end : Tx). end.seat.sent ≡ []) far.items }
    requires near_each { length near.items ≡ length routes.now }
    requires kinds { map (λ (end : Tx). end.seat.kind) far.items ≡ map kind_of routes.now }
    ensures made { IfOk result (λ made. AreDialed O.seen I.seen
        routes.now near.entry.items far.entry.items made.items) }
    ensures told { DialTells result (map channel_of routes.now) (D.seen dial.old) (D.seen dial.new) }
{
    let mut nears = Items::from_vec(near);
    nears.reverse();
    let mut fars = Items::from_vec(far);
    fars.reverse();
    let mut made = Items::new(alloc);
    for route in routes {
        let Some(near) = nears.pop() else {
            unreachable!()
        };
        let Some(far) = fars.pop() else {
            unreachable!()
        };
        made.push(dial_one(alloc, *route, near, far, dial)?)?;
    }
    Ok(made.into_vec())
}
