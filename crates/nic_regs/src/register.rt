ghost use Rattle.std.specs.Prelude.{◌≡◌, ◌<◌, IfSome};
ghost use Rattle.nic_regs.specs.Table.{address_register, register_at, IsThere};

/// The registers by their names in the manual. `Ral` and `Rah` have the number of the address, 0 to 15.
#[derive(Clone, Copy)]
pub(crate) enum Register {
    Ctrl,
    Status,
    Icr,
    Ics,
    Ims,
    Imc,
    Rctl,
    Tctl,
    Rdbal,
    Rdbah,
    Rdlen,
    Rdh,
    Rdt,
    Tdbal,
    Tdbah,
    Tdlen,
    Tdh,
    Tdt,
    Rxcsum,
    Ral(u32),
    Rah(u32),
}

/// The register at an offset; `None` exactly where there is none.
#[tactic(auto, unfolding(crate::specs::Table::register_at))]
pub(crate) fn register_at(offset: u32) -> Option<Register>
    ensures there { result ≡ register_at offset }
    ensures number { IfSome result IsThere }
{
    match offset {
        0x0000 => Some(Register::Ctrl),
        0x0008 => Some(Register::Status),
        0x00c0 => Some(Register::Icr),
        0x00c8 => Some(Register::Ics),
        0x00d0 => Some(Register::Ims),
        0x00d8 => Some(Register::Imc),
        0x0100 => Some(Register::Rctl),
        0x0400 => Some(Register::Tctl),
        0x2800 => Some(Register::Rdbal),
        0x2804 => Some(Register::Rdbah),
        0x2808 => Some(Register::Rdlen),
        0x2810 => Some(Register::Rdh),
        0x2818 => Some(Register::Rdt),
        0x3800 => Some(Register::Tdbal),
        0x3804 => Some(Register::Tdbah),
        0x3808 => Some(Register::Tdlen),
        0x3810 => Some(Register::Tdh),
        0x3818 => Some(Register::Tdt),
        0x5000 => Some(Register::Rxcsum),
        _ => address_register(offset),
    }
}

/// The registers of the receive addresses: RAL(n) at 0x5400 + 8n, RAH(n) at 0x5404 + 8n.
fn address_register(offset: u32) -> Option<Register>
    ensures there { result ≡ address_register offset }
    ensures number { IfSome result IsThere }
{
    if offset < 0x5400 || offset >= 0x5480 {
        return None;
    }
    let number = (offset - 0x5400) / 8;
    match offset % 8 {
        0 => Some(Register::Ral(number)),
        4 => Some(Register::Rah(number)),
        _ => None,
    }
}
