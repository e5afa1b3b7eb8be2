/// A port of a component, both counted from 0.
#[derive(Clone, Copy, Debug, PartialEq, Eq)]
pub struct Seat {
    pub component: u32,
    pub port: u32,
}

/// Where a channel leads.
#[derive(Clone, Copy, Debug, PartialEq, Eq)]
pub struct Way {
    /// The port that sends.
    pub from: Seat,
    /// The port that receives.
    pub to: Seat,
}
