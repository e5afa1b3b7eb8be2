//! The bits of registers by their names, and the bits that a register stores.

/// CTRL.SLU, set link up.
pub(crate) const SLU: u32 = 1 << 6;

/// CTRL.RST, reset.
pub(crate) const RST: u32 = 1 << 26;

/// STATUS: bit 0 is always set, and bit 1, LU, is as CTRL.SLU.
pub(crate) const FULL_DUPLEX: u32 = 1;

pub(crate) const LINK_UP: u32 = 1 << 1;

/// RCTL and TCTL: enable.
pub(crate) const EN: u32 = 1 << 1;

/// RCTL.UPE and RCTL.MPE: all individual addresses, all group addresses; RCTL.BAM: the broadcast address.
pub(crate) const UPE: u32 = 1 << 3;

pub(crate) const MPE: u32 = 1 << 4;

pub(crate) const BAM: u32 = 1 << 15;

/// RCTL.BSEX: buffer sizes are 16 times as large.
pub(crate) const BSEX: u32 = 1 << 25;

/// TCTL.PSP, pad short packets.
pub(crate) const PSP: u32 = 1 << 3;

/// RAH.AV, address valid.
pub(crate) const AV: u32 = 1 << 31;

/// The causes that are kept: TXDW 0, TXQE 1, LSC 2, RXDMT0 4, RXO 6, RXT0 7.
pub(crate) const CAUSES: u32 = 0xd7;

pub(crate) const CTRL_STORED: u32 = 0xfbff_ffff;

pub(crate) const BASE_STORED: u32 = 0xffff_fff0;

pub(crate) const LENGTH_STORED: u32 = 0x000f_ff80;

pub(crate) const PLACE_STORED: u32 = 0xffff;

pub(crate) const PCSS_STORED: u32 = 0xff;

pub(crate) const RAH_STORED: u32 = 0x8000_ffff;
