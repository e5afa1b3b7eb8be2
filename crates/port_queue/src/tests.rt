//! That queues may go to threads, and that they can be made.

use crate::{Full, PlainQueue, RxPort};
use cs_base::PortKind;
use std::test::Fail;

/// That threads may be handed a value of this type.
fn is_sent<T: Send>() {}

#[test]
fn queues_may_go_to_threads(_rt: HostRuntime) {
    is_sent::<PlainQueue>();
    is_sent::<Full>();
}

#[test]
fn a_queue_begins_empty(rt: HostRuntime) -> Result<(), Fail> {
    let mut queue = PlainQueue::new(rt.alloc(), 2, PortKind::Eth)?;
    assert_eq!(rt; queue.len(), 0);
    assert!(rt; queue.pop().is_none());
    Ok(())
}
