use cs_base::port_kind::PortKind;

/// A channel that goes by proxy.
#[derive(Clone, Copy, Debug)]
pub struct Route {
    /// Its number.
    pub channel: u32,
    /// The kind of the port that it leads to.
    pub kind: PortKind,
    /// The number of the component that sends on it.
    pub sender: u32,
    /// That of the component that receives on it.
    pub receiver: u32,
}
