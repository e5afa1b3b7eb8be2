//! That all messages of a stream come out of it, and those before its first fault.
use crate::feeding::deframe;
use crate::streams::{Content, stream_of};
use cs_base::items::Octets;
use cs_base::port_kind::PortKind;
use cs_base::time::Time;
use sb_frame::{Deframer, FrameBad, frame};
use sb_intro::expected;
use sb_message::{Body, Msg, MsgBad};
use std::test::Fail;

const LONGEST: usize = 1_000_000;

/// An introduction and three null messages, in four frames of 68 bytes.
fn four_frames(rt: &HostRuntime) -> Result<Octets, Fail> {
    let mut out = Octets::new(rt.alloc());
    let introduction = expected(PortKind::Eth, Time(500), Time(500));
    let first = Msg {
        at: Time(0),
        body: Body::Intro(introduction),
    };
    frame(&first, &mut out)?;
    for at in [500, 1000, 1500] {
        let null = Msg {
            at: Time(at),
            body: Body::Sync,
        };
        frame(&null, &mut out)?;
    }
    Ok(out)
}

/// How many messages come out of a stream, and its first fault.
fn read(rt: &HostRuntime, bytes: &[u8]) -> Result<(u32, Option<FrameBad>), Fail> {
    if bytes.len() > LONGEST {
        Err("a long stream")?;
    }
    let mut deframer = Deframer::new(rt.alloc(), PortKind::Eth);
    let fault = deframer.feed(bytes).err();
    for messages in 0..10u32 {
        if deframer.next().is_none() {
            return Ok((messages, fault));
        }
    }
    Err("many messages")?
}

#[test]
fn all_messages_come(rt: HostRuntime) -> Result<(), Fail> {
    let cases = [
        (Content::Nulls, 68, 16),
        (Content::Shortest, 128, 9),
        (Content::Longest, 1582, 2),
    ];
    for (content, length, messages) in cases {
        let stream = stream_of(rt.alloc(), content, 1024)?;
        assert_eq!(rt;
            stream.len(),
            68 + length * (messages - 1),
            "{}",
            content.name()
        );
        for piece in [0, 1, 64, 1500, 65536] {
            assert_eq!(rt;
                deframe(rt.alloc(), stream.as_slice(), piece)?,
                messages as u64,
                "{piece}"
            );
        }
    }
    Ok(())
}

#[test]
fn each_reserved_byte_is_refused_behind_three_frames(rt: HostRuntime) -> Result<(), Fail> {
    let stream = four_frames(&rt)?;
    assert!(rt; read(&rt, stream.as_slice())? == (4, None));
    let bad = FrameBad::Message {
        offset: 204,
        bad: MsgBad::ReservedNotZero,
    };
    for place in [60usize, 61, 62, 63, 64, 65, 66] {
        let mut wrong = Vec::from_slice(rt.alloc(), stream.as_slice())?;
        if let Some(byte) = wrong.get_mut(204 + place) {
            *byte = 1;
        }
        assert!(rt; read(&rt, wrong.as_slice())? == (3, Some(bad)), "{place}");
    }
    Ok(())
}

#[test]
fn a_length_below_the_least_is_refused_by_its_fourth_byte(rt: HostRuntime) -> Result<(), Fail> {
    assert!(rt; read(&rt, &[0x3f, 0, 0])? == (0, None));
    let bad = FrameBad::Length { offset: 0 };
    assert!(rt; read(&rt, &[0x3f, 0, 0, 0])? == (0, Some(bad)));
    Ok(())
}
