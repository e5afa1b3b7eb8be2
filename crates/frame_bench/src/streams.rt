//! Streams of frames, as a channel between two stations has them.

use cs_base::items::Octets;
use cs_base::no_memory::NoMemory;
use cs_base::port_kind::PortKind;
use cs_base::time::Time;
use eth_proto::EthMsg;
use sb_frame::frame;
use sb_intro::expected;
use sb_message::{Body, Msg};
use std::alloc::Global;

/// What a stream has behind its introduction.
#[derive(Clone, Copy)]
pub enum Content {
    /// Null messages alone.
    Nulls,
    /// Packets of 60 bytes.
    Shortest,
    /// Packets of 1,514 bytes.
    Longest,
}

impl Content {
    pub fn name(self) -> &'static str {
        match self {
            Content::Nulls => "null messages",
            Content::Shortest => "packets of 60 bytes",
            Content::Longest => "packets of 1514 bytes",
        }
    }

    /// The message that the stream has again and again.
    fn body(self, alloc: Global) -> Result<Body, NoMemory> {
        match self {
            Content::Nulls => Ok(Body::Sync),
            Content::Shortest => packet(alloc, 60),
            Content::Longest => packet(alloc, 1514),
        }
    }
}

/// A packet of so many bytes; a null message where there is none of that length.
fn packet(alloc: Global, bytes: usize) -> Result<Body, NoMemory> {
    let bytes = Octets::from_vec(vec![in alloc; 0x5a; bytes]?);
    match EthMsg::new(bytes) {
        Some(packet) => Ok(Body::Eth(packet)),
        None => Ok(Body::Sync),
    }
}

/// An introduction, and then the content's message each picosecond, until there are so many bytes.
pub fn stream_of(alloc: Global, content: Content, bytes: usize) -> Result<Octets, NoMemory> {
    let mut out = Octets::new(alloc);
    let intro = Msg {
        at: Time(0),
        body: Body::Intro(expected(PortKind::Eth, Time(500), Time(500))),
    };
    frame(&intro, &mut out)?;
    let mut message = Msg {
        at: Time(0),
        body: content.body(alloc)?,
    };
    for at in 0..bytes as u64 {
        if out.len() >= bytes {
            break;
        }
        message.at = Time(at);
        frame(&message, &mut out)?;
    }
    Ok(out)
}
