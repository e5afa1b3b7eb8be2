/// What an address of a host leads to. Offsets count bytes from the first one of the RAM, the BAR or the window.
#[derive(Clone, Copy, Debug, PartialEq, Eq)]
pub enum Place {
    Ram(u32),
    /// A store of one byte here prints it.
    Console,
    /// A store of four bytes here ends the host.
    Halt,
    /// A load of four bytes here counts the host's ticks.
    Cycles,
    /// The registers of the device at a PCIe port.
    Bar { port: u32, offset: u32 },
    /// The memory of the device at a port, counted from the first PCIe port.
    Window { port: u32, offset: u32 },
    /// No device is there.
    Nowhere,
}
