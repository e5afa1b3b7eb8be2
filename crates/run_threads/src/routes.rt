//! The channels that go by proxy, with what they join.
ghost use Rattle.std.specs.Prelude.{◌≡◌, ◌≤◌, ◌+◌, ◌++◌, ◌∷◌, [], length, IfOk, OnOk};
ghost use Rattle.cs_base.specs.Plan.{first_end, second_end};
ghost use Rattle.run_threads.specs.Proxied.{only_proxied};
ghost use Rattle.run_threads.specs.Routes.{routes_of, route_along};

use cs_base::items::Items;
use cs_base::link::Link;
use cs_base::no_memory::NoMemory;
use cs_base::port_kind::{PortKind, Via};
use mesh_core::build::kind_of;
use proxy_crew::Route;
use std::alloc::Global;

/// Those of one link more, of which the first channel has this number.
fn add_link(
    routes: &mut Vec<Route>,
    kinds: &[Items<PortKind>],
    channel: u32,
    link: &Link,
) -> Result<(), NoMemory>
    requires { channel ≤ 2046 }
    ensures { OnOk result (routes.new.items ≡ routes.old.items ++ only_proxied link.now.via
        (route_along kinds.now channel (first_end link.now) (second_end link.now)
        ∷ route_along kinds.now (channel + 1) (second_end link.now) (first_end link.now) ∷ [])) }
{
    match link.via {
        Via::Queue => Ok(()),
        Via::Proxy => {
            routes.push(Route {
                channel,
                kind: kind_of(kinds, link.b, link.b_port),
                sender: link.a,
                receiver: link.b,
            })?;
            routes.push(Route {
                channel: channel + 1,
                kind: kind_of(kinds, link.a, link.a_port),
                sender: link.b,
                receiver: link.a,
            })?;
            Ok(())
        }
    }
}

/// Those of all links, in the order of the channels.
pub(crate) fn routes_of(
    alloc: Global,
    kinds: &[Items<PortKind>],
    links: &[Link],
) -> Result<Vec<Route>, NoMemory>
    requires few { length links.now ≤ 1024 }
    ensures { IfOk result (λ made. made.items ≡ routes_of kinds.now links.now) }
{
    let mut routes = Vec::new(alloc);
    let mut channel = 0;
    for link in links {
        add_link(&mut routes, kinds, channel, link)?;
        channel += 2;
    }
    Ok(routes)
}
