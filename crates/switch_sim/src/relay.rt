ghost use Rattle.std.specs.Prelude.{◌≡◌, ◌≤◌, ◌+◌, ℕ, List, ◌++◌, ◌∷◌, [], length, slice_range, OnOk, IfOk, MatchOption};
ghost use Rattle.sb_message.specs.declared.message.Body.TheVariants.{Eth};
ghost use Rattle.switch_sim.specs.Switch.{flood, flood_by, sends_of, line_of, news_line, news_lines};

use cs_base::items::Octets;
use cs_base::mac::Mac;
use cs_base::no_memory::NoMemory;
use cs_base::numbers;
use device_api::{Effects, LineText};
use eth_proto::EthMsg;
use sb_message::Body;
use std::alloc::Global;

/// What becomes of a frame.
#[derive(Clone, Copy, Debug, PartialEq, Eq)]
pub enum Relay {
    /// It is sent by no port.
    Filter,
    /// It is sent by all ports but that of its arrival.
    Flood,
    /// It is sent by one port.
    Forward(u32),
}

/// The address that begins at a byte of a frame.
pub fn address_at(frame: &[u8], at: usize) -> Mac
    requires { at + 6 ≤ length frame.now }
    ensures { result ≡ slice_range frame.now at (at + 6) }
{
    Mac([
        frame[at],
        frame[at + 1],
        frame[at + 2],
        frame[at + 3],
        frame[at + 4],
        frame[at + 5],
    ])
}

/// Sends a frame by a port, if it isn't that of its arrival.
fn flood_by(message: &EthMsg, arrival: u32, port: u32, out: &mut Effects) -> Result<(), NoMemory>
    ensures sends { OnOk result (out.new.sends
        ≡ out.old.sends ++ flood_by message.now arrival port) }
    ensures lines { out.new.lines ≡ out.old.lines }
{
    if port == arrival {
        return Ok(());
    }
    out.send(port, Body::Eth(message.copy()?))
}

/// The last port but that of an arrival; None where there is no other.
#[tactic(auto, using(crate::proofs::Flooding::flood_none, crate::proofs::Flooding::flood_arrival, crate::proofs::Flooding::flood_other, crate::proofs::Flooding::flood_alone))]
fn last_other(arrival: u32, ports: u32) -> Option<u32>
    ensures { (frame : List ℕ) → MatchOption result (flood frame arrival ports ≡ [])
        (λ last. flood frame arrival ports ≡ flood frame arrival last ++ (last, Eth frame) ∷ []) }
{
    if ports == 0 || (ports == 1 && arrival == 0) {
        None
    } else if arrival == ports - 1 {
        Some(ports - 2)
    } else {
        Some(ports - 1)
    }
}

/// Sends copies of a frame by each of the ports below a number but that of its arrival.
#[tactic(auto, unfolding(crate::specs::Switch::flood))]
fn flood_copies(
    message: &EthMsg,
    arrival: u32,
    ports: u32,
    out: &mut Effects,
) -> Result<(), NoMemory>
    ensures sends { OnOk result (out.new.sends ≡ out.old.sends ++ flood message.now arrival ports) }
    ensures lines { out.new.lines ≡ out.old.lines }
{
    for port in 0..ports {
        flood_by(message, arrival, port, out)?;
    }
    Ok(())
}

/// Sends a frame by each of the ports but that of its arrival: copies, and the frame itself by the last one.
fn flood(message: EthMsg, arrival: u32, ports: u32, out: &mut Effects) -> Result<(), NoMemory>
    ensures sends { OnOk result (out.new.sends ≡ out.old.sends ++ flood message arrival ports) }
    ensures lines { out.new.lines ≡ out.old.lines }
{
    match last_other(arrival, ports) {
        None => Ok(()),
        Some(last) => {
            flood_copies(&message, arrival, last, out)?;
            out.send(last, Body::Eth(message))
        }
    }
}

impl Relay {
    /// Sends a frame as is said.
    pub fn send(
        self,
        message: EthMsg,
        arrival: u32,
        ports: u32,
        out: &mut Effects,
    ) -> Result<(), NoMemory>
        ensures sends { OnOk result (out.new.sends
            ≡ out.old.sends ++ sends_of ports arrival message self) }
        ensures lines { out.new.lines ≡ out.old.lines }
    {
        match self {
            Relay::Filter => Ok(()),
            Relay::Flood => flood(message, arrival, ports, out),
            Relay::Forward(port) => out.send(port, Body::Eth(message)),
        }
    }

    /// Logs what becomes of the frame.
    pub fn log(self, alloc: Global, out: &mut Effects) -> Result<(), NoMemory>
        ensures lines { OnOk result (out.new.lines ≡ out.old.lines ++ line_of self ∷ []) }
        ensures sends { out.new.sends ≡ out.old.sends }
    {
        let mut line = LineText::new(alloc);
        match self {
            Relay::Filter => line.append(b"filter")?,
            Relay::Flood => line.append(b"flood")?,
            Relay::Forward(port) => {
                line.append(b"forward ")?;
                line.decimal(u64::from(port))?
            }
        }
        out.line_text(line)
    }
}

/// The line that says where a station was learned to be.
fn news_line(alloc: Global, from: Mac, port: u32) -> Result<LineText, NoMemory>
    ensures { IfOk result (λ line. line ≡ news_line from port) }
{
    let mut address = Octets::new(alloc);
    numbers::mac_text(from, &mut address)?;
    let mut line = LineText::new(alloc);
    line.append(b"learn ")?;
    line.append(address.as_slice())?;
    line.append(b" ")?;
    line.decimal(u64::from(port))?;
    Ok(line)
}

/// Logs what was learned of the source of a frame, if that is news.
pub fn log_news(
    alloc: Global,
    news: bool,
    from: Mac,
    port: u32,
    out: &mut Effects,
) -> Result<(), NoMemory>
    ensures lines { OnOk result (out.new.lines ≡ out.old.lines ++ news_lines news from port) }
    ensures sends { out.new.sends ≡ out.old.sends }
{
    if news {
        let line = news_line(alloc, from, port)?;
        out.line_text(line)
    } else {
        Ok(())
    }
}
