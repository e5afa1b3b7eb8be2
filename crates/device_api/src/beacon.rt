ghost use Rattle.std.specs.Prelude.{◌≡◌, ◌+◌, ◌*◌, ◌^◌, ◌≤◌, ◌↔◌, ◌++◌, ◌∷◌, [], ℕ, IsTrue, IfOk, IsOk, OnOk, Ok, Err, decimal, length};
ghost use Rattle.device_api.specs.Behaviour.{IsNotPast};
ghost use Rattle.device_api.specs.Beacon.{started, frame_of, beacon_due, size_line, IsSettledBeacon};
ghost use Rattle.device_api.specs.Parts.{parts_of, resumed, StandsBefore, ArePartsValid, MakeItAgain};
ghost use Rattle.device_api.specs.declared.parts_bad.PartsBad.TheVariants.{Invalid};

use crate::device::Device;
use crate::effects::Effects;
use crate::line_text::LineText;
use crate::parts_bad::PartsBad;
use cs_base::beacon_config::BeaconConfig;
use cs_base::items::Octets;
use cs_base::no_memory::NoMemory;
use cs_base::port_kind::PortKind;
use cs_base::time::Time;
use eth_proto::EthMsg;
use sb_message::Body;
use std::alloc::Global;
use std::marker::Model;

/// A station that sends a number of Ethernet frames by itself, one each period, and logs what it sends and
/// what it receives.
#[derive(Debug, Drop)]
pub struct Beacon {
    config: BeaconConfig,
    sent: u32,
}

/// What is kept of a beacon beside its configuration, so that it can be made again.
#[derive(Clone, Copy, Debug, PartialEq, Eq)]
pub struct BeaconParts {
    /// How many frames it has sent.
    pub sent: u32,
}

impl BeaconParts {
    /// Whether a beacon of the configuration may have sent so many frames before `at`: no more than the count, the
    /// last one before `at`, and the next one, where there is one, isn't due before `at`.
    pub fn is_valid(&self, config: &BeaconConfig, at: Time) -> bool
        ensures { IsTrue result ↔ StandsBefore at (resumed config.now self.now) }
    {
        self.sent <= config.count
            && (self.sent == 0 || time_of(config, self.sent - 1) < u128::from(at.0))
            && (self.sent == config.count || u128::from(at.0) <= time_of(config, self.sent))
    }
}

/// When frame `k` of a beacon is sent, in picoseconds.
fn time_of(config: &BeaconConfig, k: u32) -> u128
    ensures { result ≡ config.now.first + k * config.now.period }
{
    u128::from(config.first.0) + u128::from(k) * u128::from(config.period.0)
}

impl Model for Beacon {
    ghost use Rattle.device_api.specs.Beacon.{BeaconState, IsWithinRun, started};

    ghost Value = { BeaconState };

    ghost view = { λ b. record (started b.config) { sent = b.sent } };

    ghost invariant = { λ b. IsWithinRun b.config b.sent };
}

impl Beacon {
    /// A beacon that has sent nothing yet.
    pub fn start(_alloc: Global, config: &BeaconConfig) -> Result<Beacon, NoMemory>
        ensures state { IfOk result (λ beacon. beacon ≡ started config.now) }
        ensures at_start { IfOk result (λ beacon. IsSettledBeacon beacon 0) }
    {
        Ok(Beacon {
            config: *config,
            sent: 0,
        })
    }

    /// Keeps the beacon as parts, as it stands before any event at `at` or later.
    pub fn into_parts(self, at: Time) -> Result<BeaconParts, NoMemory>
        requires settled_then { IsSettledBeacon self at }
        requires not_past { IsNotPast at (beacon_due self) }
        requires in_run { at ≤ 10 ^ 15 }
        ensures parts { result ≡ Ok (parts_of self) }
        // With the configuration that the beacon was started with, its parts are valid and make it again.
        ensures valid { ArePartsValid at self }
        ensures again { MakeItAgain self }
    {
        Ok(BeaconParts { sent: self.sent })
    }

    /// The beacon that the parts make, before any event at `at` or later.
    pub fn from_parts(
        config: &BeaconConfig,
        at: Time,
        parts: BeaconParts,
    ) -> Result<Beacon, PartsBad>
        requires { at ≤ 10 ^ 15 }
        ensures state { IfOk result (λ beacon. beacon ≡ resumed config.now parts) }
        ensures settled { IfOk result (λ beacon. (x : ℕ) → at ≤ x → IsSettledBeacon beacon x) }
        ensures valid { IsOk result ↔ StandsBefore at (resumed config.now parts) }
        ensures invalid { (result ≡ Err Invalid) ↔ (¬ StandsBefore at (resumed config.now parts)) }
    {
        if !parts.is_valid(config, at) {
            return Err(PartsBad::Invalid);
        }
        Ok(Beacon {
            config: *config,
            sent: parts.sent,
        })
    }

    /// The frame that is sent next.
    fn next_frame(&self, alloc: Global) -> Result<EthMsg, NoMemory>
        ensures { IfOk result (λ frame. frame ≡ frame_of self.now self.now.sent) }
    {
        let length = self.config.length as usize;
        let mut frame = Vec::with_capacity(alloc, length)?;
        frame.extend_from_slice(&self.config.to.bytes())?;
        frame.extend_from_slice(&self.config.from.bytes())?;
        frame.extend_from_slice(&[0x88, 0xb5])?;
        frame.resize(length, (self.sent % 256) as u8)?;
        Ok(EthMsg::new(Octets::from_vec(frame)).unwrap())
    }
}

/// Logs a word and the length of a frame.
fn log_length(alloc: Global, word: &[u8], length: usize, out: &mut Effects) -> Result<(), NoMemory>
    ensures lines { OnOk result (out.new.lines ≡ out.old.lines ++ size_line word.now length ∷ []) }
    ensures sends { out.new.sends ≡ out.old.sends }
{
    let mut line = LineText::new(alloc);
    line.append(word)?;
    line.decimal(length as u64)?;
    out.line_text(line)
}

impl Device for Beacon {
    ghost use Rattle.device_api.specs.Beacon.{beacon, IsSettledBeacon};
    ghost use Rattle.device_api.specs.BeaconLaws.{beacon_lawful};

    ghost behaviour = { beacon };

    ghost settled = { IsSettledBeacon };

    fn ports(&self) -> u32 {
        1
    }

    fn kind(&self, _port: u32) -> PortKind {
        PortKind::Eth
    }

    fn due(&self) -> Option<Time> {
        if self.sent < self.config.count {
            Some(Time(self.config.first.0 + u64::from(self.sent) * self.config.period.0))
        } else {
            None
        }
    }

    fn take(
        &mut self,
        alloc: Global,
        _t: Time,
        _port: u32,
        body: Body,
        out: &mut Effects,
    ) -> Result<(), NoMemory> {
        match body {
            Body::Eth(message) => log_length(alloc, b"rx ", message.frame().len(), out),
            _ => Ok(()),
        }
    }

    fn tick(&mut self, alloc: Global, _t: Time, out: &mut Effects) -> Result<(), NoMemory> {
        let frame = self.next_frame(alloc)?;
        log_length(alloc, b"tx ", self.config.length as usize, out)?;
        out.send(0, Body::Eth(frame))?;
        self.sent += 1;
        Ok(())
    }

    ghost lawful = { beacon_lawful };
}
