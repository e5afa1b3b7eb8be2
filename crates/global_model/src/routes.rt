ghost use Rattle.std.specs.Prelude.{◌≡◌, Some, IsSome, IfOk};
ghost use Rattle.global_model.specs.Inboxes.{port_of, end_at};
ghost use Rattle.global_model.specs.Routes.{route_from, AreRoutes, AreRoutesOf};

use cs_base::items::Items;
use cs_base::link::Link;
use cs_base::no_memory::NoMemory;
use cs_base::port_kind::PortKind;
use cs_base::time::Time;
use std::alloc::Global;
use std::marker::Model;

/// Where what a port sends arrives, how long it travels, and the number of its channel.
#[derive(Clone, Copy, Debug, PartialEq, Eq)]
pub struct Route {
    pub component: u32,
    pub port: u32,
    pub latency: Time,
    pub channel: usize,
}

/// The route out of each port of each component.
#[derive(Drop)]
pub struct Routes {
    components: Vec<Vec<Option<Route>>>,
}

impl Model for Routes {
    ghost use Rattle.std.specs.Prelude.{map, List, Option};
    ghost use Rattle.global_model.specs.declared.routes.Route.{Route as Entry};

    ghost Value = { List (List (Option Entry)) };

    ghost view = { λ r. map (λ ports. ports.items) r.components.items };
}

impl Routes {
    /// The routes along the links of components with ports of these kinds.
    pub fn new(alloc: Global, kinds: &[Items<PortKind>], links: &[Link]) -> Result<Routes, NoMemory>
        ensures { IfOk result (AreRoutes kinds.now links.now) }
    {
        let mut components = Vec::new(alloc);
        for (component, ports) in kinds.iter().enumerate() {
            components.push(routes_out_of(alloc, component, ports.len(), links)?)?;
        }
        Ok(Routes { components })
    }

    /// The route out of a port that is there.
    pub fn get(&self, component: u32, port: u32) -> Option<Route>
        requires { IsSome (port_of self.now (end_at component port)) }
        ensures { port_of self.now (end_at component port) ≡ Some result }
    {
        self.components[component as usize][port as usize]
    }
}

/// The routes out of the ports of a component.
fn routes_out_of(
    alloc: Global,
    component: usize,
    ports: usize,
    links: &[Link],
) -> Result<Vec<Option<Route>>, NoMemory>
    ensures { IfOk result (λ routes. AreRoutesOf component ports links.now routes.items) }
{
    let mut routes = Vec::new(alloc);
    for port in 0..ports {
        routes.push(route_out_of(component, port, links))?;
    }
    Ok(routes)
}

/// The route along the link of a port.
fn route_out_of(component: usize, port: usize, links: &[Link]) -> Option<Route>
    ensures { result ≡ route_from links.now (end_at component port) }
{
    for (number, link) in links.iter().enumerate() {
        if link.a as usize == component && link.a_port as usize == port {
            return Some(Route {
                component: link.b,
                port: link.b_port,
                latency: link.latency,
                channel: 2 * number,
            });
        }
        if link.b as usize == component && link.b_port as usize == port {
            return Some(Route {
                component: link.a,
                port: link.a_port,
                latency: link.latency,
                channel: 2 * number + 1,
            });
        }
    }
    None
}
