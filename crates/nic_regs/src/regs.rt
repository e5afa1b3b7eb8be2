ghost use Rattle.std.specs.Prelude.{◌≡◌, ◌≤◌, ◌<◌, ◌↔◌, IsSome, IfSome};
ghost use Rattle.nic_regs.specs.Parts.{IsValid};
ghost use Rattle.nic_regs.specs.Registers.{low_of, high_of};

use crate::bits::{AV, BAM, BSEX, CAUSES, EN, MPE, PLACE_STORED, PSP, RST, SLU, UPE};
use crate::parts::RegsParts;
use crate::register::{Register, register_at};
use cs_base::Mac;
use nic_rings::Ring;
use std::marker::Model;

/// What a write of a register was.
#[derive(Clone, Copy, Debug, PartialEq, Eq)]
pub enum RegAct {
    /// A value was stored, or nothing changed.
    Stored,
    /// CTRL.RST was set: all registers are as they were at the start.
    Reset,
}

/// The registers of an adapter, and the configured address that a reset restores.
#[derive(Debug, Drop)]
pub struct Regs {
    parts: RegsParts,
    mac: Mac,
}

impl Model for Regs {
    ghost use Rattle.nic_regs.specs.Registers.{Registers};
    ghost use Rattle.nic_regs.specs.Parts.{IsValid};

    ghost Value = { Registers };

    ghost view = { λ r. record { parts = r.parts; mac = r.mac } };

    ghost invariant = { λ r. IsValid r.parts };
}

/// Bytes 0 to 3 of an address as a number, byte 0 lowest, as RAL has them.
fn low_of(mac: Mac) -> u32
    ensures { result ≡ low_of mac }
{
    let [b0, b1, b2, b3, _, _] = mac.bytes();
    u32::from_le_bytes([b0, b1, b2, b3])
}

/// Bytes 4 and 5 of an address as a number with AV, as RAH has them.
fn high_of(mac: Mac) -> u32
    ensures value { result ≡ high_of mac }
    ensures least { 0x8000_0000 ≤ result }
    ensures less { result < 0x8001_0000 }
{
    let [_, _, _, _, b4, b5] = mac.bytes();
    AV + u32::from(b5) * 256 + u32::from(b4)
}

impl Regs {
    ghost use Rattle.nic_regs.specs.Registers.{accepts, act_of, after_read, after_write, buffer_size, has, is_own, line_of, pads, raised, read_value, resumed, rx_on, rx_ring_of, size_of, started, tx_on, tx_ring_of, with_rx_head, with_tx_head, is_broadcast};

    /// The registers at the start: STATUS reads 1, the first receive address is the configured one, and all else is 0.
    pub fn new(mac: Mac) -> Regs
        ensures { result ≡ started mac }
    {
        let mut ral = [0; 16];
        let mut rah = [0; 16];
        ral[0] = low_of(mac);
        rah[0] = high_of(mac);
        Regs {
            parts: RegsParts {
                ctrl: 0,
                causes: 0,
                mask: 0,
                rctl: 0,
                tctl: 0,
                rdbal: 0,
                rdbah: 0,
                rdlen: 0,
                rdh: 0,
                rdt: 0,
                tdbal: 0,
                tdbah: 0,
                tdlen: 0,
                tdh: 0,
                tdt: 0,
                pcss: 0,
                ral,
                rah,
            },
            mac,
        }
    }

    /// What the register at an offset reads, 0 where there is none. A read of ICR clears the causes.
    pub fn read(&mut self, offset: u32) -> u32
        ensures value { result ≡ read_value self.old offset }
        ensures after { self.new ≡ after_read self.old offset }
    {
        let Some(register) = register_at(offset) else {
            return 0;
        };
        let value = self.parts.read_by(register);
        if let Register::Icr = register {
            self.parts.causes = 0;
        }
        value
    }

    /// Writes the register at an offset; nothing changes where there is none. A write of CTRL with RST resets.
    pub fn write(&mut self, offset: u32, value: u32) -> RegAct
        ensures act { result ≡ act_of offset value }
        ensures after { self.new ≡ after_write self.old offset value }
    {
        let Some(register) = register_at(offset) else {
            return RegAct::Stored;
        };
        if let Register::Ctrl = register {
            if value & RST != 0 {
                *self = Regs::new(self.mac);
                return RegAct::Reset;
            }
        }
        self.parts.store_by(register, value);
        RegAct::Stored
    }

    /// Raises causes; those that aren't kept are left out.
    pub fn raise(&mut self, bits: u32)
        ensures { self.new ≡ raised self.old bits }
    {
        self.parts.causes = (self.parts.causes | bits) & CAUSES;
    }

    /// Whether the interrupt line is high: causes and mask have a common bit.
    pub fn line(&self) -> bool
        ensures { result ≡ line_of self.now }
    {
        self.parts.causes & self.parts.mask != 0
    }

    /// The ring of receive descriptors.
    pub fn rx_ring(&self) -> Ring
        ensures { result ≡ rx_ring_of self.now }
    {
        Ring {
            base: u64::from(self.parts.rdbal) + u64::from(self.parts.rdbah) * (1 << 32),
            len: self.parts.rdlen,
            head: self.parts.rdh,
            tail: self.parts.rdt,
        }
    }

    /// The ring of transmit descriptors.
    pub fn tx_ring(&self) -> Ring
        ensures { result ≡ tx_ring_of self.now }
    {
        Ring {
            base: u64::from(self.parts.tdbal) + u64::from(self.parts.tdbah) * (1 << 32),
            len: self.parts.tdlen,
            head: self.parts.tdh,
            tail: self.parts.tdt,
        }
    }

    /// Sets RDH, of which 16 bits are stored.
    pub fn set_rx_head(&mut self, head: u32)
        ensures { self.new ≡ with_rx_head self.old head }
    {
        self.parts.rdh = head & PLACE_STORED;
    }

    /// Sets TDH, of which 16 bits are stored.
    pub fn set_tx_head(&mut self, head: u32)
        ensures { self.new ≡ with_tx_head self.old head }
    {
        self.parts.tdh = head & PLACE_STORED;
    }

    /// Whether a frame to this address is accepted: an address of RAL and RAH with AV; with UPE any individual one, with
    /// MPE any group address, with BAM the broadcast address.
    pub fn accepts(&self, to: Mac) -> bool
        ensures { result ≡ accepts self.now to }
    {
        let every = if to.is_individual() { UPE } else { MPE };
        self.is_own(to)
            || self.parts.rctl & every != 0
            || (low_of(to) == 0xffff_ffff
                && high_of(to) == 0x8000_ffff
                && self.parts.rctl & BAM != 0)
    }

    fn is_own(&self, to: Mac) -> bool
        ensures { result ≡ is_own self.now to }
    {
        let (low, high) = (low_of(to), high_of(to));
        self.parts
            .ral
            .iter()
            .zip(&self.parts.rah)
            .any(|(ral, rah)| *ral == low && *rah == high)
    }

    /// Whether frames are received: RCTL.EN and CTRL.SLU are set.
    pub fn rx_on(&self) -> bool
        ensures { result ≡ rx_on self.now }
    {
        self.parts.rctl & EN != 0 && self.parts.ctrl & SLU != 0
    }

    /// Whether frames are sent: TCTL.EN and CTRL.SLU are set.
    pub fn tx_on(&self) -> bool
        ensures { result ≡ tx_on self.now }
    {
        self.parts.tctl & EN != 0 && self.parts.ctrl & SLU != 0
    }

    /// The bytes of a receive buffer, by RCTL.BSIZE and RCTL.BSEX.
    pub fn buffer_size(&self) -> u32
        ensures { result ≡ buffer_size self.now }
    {
        let is_extended = self.parts.rctl & BSEX != 0;
        match (self.parts.rctl >> 16) % 4 {
            0 => 2048,
            1 if is_extended => 16384,
            1 => 1024,
            2 if is_extended => 8192,
            2 => 512,
            _ if is_extended => 4096,
            _ => 256,
        }
    }

    /// Whether short frames are padded: TCTL.PSP is set.
    pub fn pads(&self) -> bool
        ensures { result ≡ pads self.now }
    {
        self.parts.tctl & PSP != 0
    }

    /// Where the packet checksum starts: RXCSUM.PCSS.
    pub fn checksum_start(&self) -> u32
        ensures { result ≡ self.now.parts.pcss }
    {
        self.parts.pcss
    }

    /// All that the registers hold.
    pub fn into_parts(self) -> RegsParts
        ensures parts { result ≡ self.parts }
        ensures valid { IsValid result }
        // `from_parts` makes the same registers of them.
        ensures undone { resumed self.mac result ≡ self }
    {
        self.parts
    }

    /// Registers that hold these parts, `mac` being the configured address. `None` exactly where the parts aren't valid.
    pub fn from_parts(mac: Mac, parts: RegsParts) -> Option<Regs>
        ensures valid { IsSome result ↔ IsValid parts }
        ensures resumed { IfSome result (λ regs. regs ≡ resumed mac parts) }
    {
        if parts.is_valid() {
            Some(Regs { parts, mac })
        } else {
            None
        }
    }
}
