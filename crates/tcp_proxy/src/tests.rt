//! That the calls succeed, and streams that come in pieces, with a fault and with an early end.
ghost use Rattle.std.specs.Prelude.{OnOk};
ghost use Rattle.tcp_proxy.specs.Filled.{IsFilled};

use crate::{Differ, ProxyBad, ProxyIn, ProxyOut, compare};
use cs_base::items::{Items, Octets};
use cs_base::list_wires::{ListIn, ListOut};
use cs_base::no_memory::NoMemory;
use cs_base::port_kind::PortKind;
use cs_base::time::Time;
use eth_proto::EthMsg;
use port_queue::PlainQueue;
use sb_frame::{FrameBad, frame};
use sb_intro::expected;
use sb_message::{Body, Msg, MsgBad};
use std::test::Fail;

fn is_sent<T: Send>() {}

fn add(out: &mut Octets, at: u64, body: Body) -> Result<(), NoMemory> {
    frame(&Msg { at: Time(at), body }, out)
}

// An introduction, a null message, a packet of 60 bytes and a null message.
fn stream(rt: &HostRuntime) -> Result<Octets, Fail> {
    let mut out = Octets::new(rt.alloc());
    let intro = expected(PortKind::Eth, Time(500), Time(500));
    add(&mut out, 0, Body::Intro(intro))?;
    add(&mut out, 500, Body::Sync)?;
    let packet = Octets::from_slice(rt.alloc(), &[0; 60])?;
    add(
        &mut out,
        700,
        Body::Eth(EthMsg::new(packet).ok_or("a frame")?),
    )?;
    add(&mut out, 1200, Body::Sync)?;
    Ok(out)
}

// So many pieces of a size, with a pause behind each where so said.
fn pieces(rt: &HostRuntime, size: usize, pause: bool) -> Result<Items<usize>, Fail> {
    let mut sizes = Items::new(rt.alloc());
    for _ in 0..400 {
        sizes.push(size)?;
        if pause {
            sizes.push(0)?;
        }
    }
    Ok(sizes)
}

// Turns a receiving end so often.
fn fill(proxy: &mut ProxyIn<ListIn>, queue: &mut PlainQueue, turns: u32) -> Result<(), ProxyBad>
    requires { IsFilled proxy.old queue.old }
    ensures { OnOk result (IsFilled proxy.new queue.new) }
{
    for _ in 0..turns {
        proxy.turn(queue)?;
    }
    Ok(())
}

// What a receiving end comes to over a wire that gives these bytes.
#[derive(Drop)]
struct Arrived {
    proxy: ProxyIn<ListIn>,
    queue: PlainQueue,
    bad: Option<ProxyBad>,
}

fn hear(rt: &HostRuntime, bytes: &[u8], sizes: Items<usize>, ends: bool) -> Result<Arrived, Fail> {
    let wire = ListIn::new(Octets::from_slice(rt.alloc(), bytes)?, sizes, ends);
    let mut queue = PlainQueue::new(rt.alloc(), 64, PortKind::Eth)?;
    let mut proxy = ProxyIn::new(rt.alloc(), wire, PortKind::Eth);
    let bad = fill(&mut proxy, &mut queue, 1000).err();
    Ok(Arrived { proxy, queue, bad })
}

#[test]
fn ends_may_go_to_threads(_rt: HostRuntime) {
    is_sent::<ProxyIn<ListIn>>();
    is_sent::<ProxyOut<ListOut>>();
}

#[test]
fn a_stream_that_ends(rt: HostRuntime) -> Result<(), Fail> {
    let bytes = stream(&rt)?;
    for end in 0..bytes.len() + 1 {
        let part = bytes.as_slice().get(..end).ok_or("a part")?;
        let heard = hear(&rt, part, pieces(&rt, 1, false)?, true)?;
        assert_eq!(rt; heard.bad, Some(ProxyBad::Lost), "at {end}");
        assert!(rt; heard.proxy.at_end());
        assert!(rt; heard.proxy.kept() == part);
        let whole = [68, 136, 264, 332]
            .iter()
            .filter(|frame| **frame <= end)
            .count();
        assert_eq!(rt; heard.queue.len(), whole, "at {end}");
    }
    Ok(())
}

#[test]
fn a_stream_with_a_fault(rt: HostRuntime) -> Result<(), Fail> {
    let bytes = stream(&rt)?;
    let mut wrong = Vec::from_slice(rt.alloc(), bytes.as_slice())?;
    if let Some(byte) = wrong.get_mut(132) {
        *byte = 1;
    }
    let heard = hear(&rt, wrong.as_slice(), pieces(&rt, 1, true)?, false)?;
    let bad = FrameBad::Message {
        offset: 68,
        bad: MsgBad::ReservedNotZero,
    };
    assert_eq!(rt; heard.bad, Some(ProxyBad::Frame(bad)));
    assert_eq!(rt; heard.queue.len(), 1);
    assert!(rt; !heard.proxy.at_end());
    Ok(())
}

#[test]
fn what_came_is_compared(rt: HostRuntime) {
    assert_eq!(rt; compare(b"abc", b"ab"), None);
    assert_eq!(rt; compare(b"", b""), None);
    let differ = compare(b"abc", b"axc");
    assert_eq!(rt;
        differ,
        Some(Differ {
            offset: 1,
            sent: Some(b'b'),
            got: b'x'
        })
    );
    let longer = compare(b"ab", b"abc");
    assert_eq!(rt;
        longer,
        Some(Differ {
            offset: 2,
            sent: None,
            got: b'c'
        })
    );
}
