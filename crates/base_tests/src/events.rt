//! Events in order.

use anim_names::{AnimEvent, ModelId};
use event_queue::EventQueue;
use std::process::Abort;
use std::test::Fail;

fn finished(model: u32) -> AnimEvent {
    AnimEvent::Finished {
        model: ModelId(model),
        at: 5,
    }
}

fn send(rt: &impl Abort, queue: &mut EventQueue, model: u32) {
    assert!(rt; queue.spare() > 0);
    queue.send(finished(model));
}

#[test]
fn each_event_is_given_once(rt: HostRuntime) -> Result<(), Fail> {
    let mut queue = EventQueue::new(rt.alloc());
    queue.reserve(3)?;
    let mut heard = Vec::with_capacity(rt.alloc(), 3)?;
    send(&rt, &mut queue, 1);
    send(&rt, &mut queue, 2);
    assert!(rt; heard.capacity() - heard.len() >= queue.unheard());
    assert!(rt; queue.take_new(&mut heard) == 2);
    assert!(rt; queue.unheard() == 0);
    send(&rt, &mut queue, 3);
    assert!(rt; heard.capacity() - heard.len() >= queue.unheard());
    assert!(rt; queue.take_new(&mut heard) == 1);
    assert!(rt; heard.as_slice() == [finished(1), finished(2), finished(3)].as_slice());
    assert!(rt; queue.events().len() == 3);
    Ok(())
}
