//! What a timeline shows at a tick.

use anim_timeline::Timeline;
use std::test::Fail;

#[test]
fn a_timeline_counts_from_its_zero(rt: HostRuntime) -> Result<(), Fail> {
    let timeline = Timeline::new(1000).ok_or("no timeline")?;
    assert!(rt; timeline.zero() == 1000);
    assert!(rt; timeline.time_of(2000) == 1000);
    assert!(rt; timeline.time_of(500) == -500);
    Ok(())
}

#[test]
fn a_zero_is_at_most_two_to_the_fifty(rt: HostRuntime) -> Result<(), Fail> {
    let last = Timeline::new(1 << 50).ok_or("no timeline")?;
    assert!(rt; last.time_of(0) == -(1 << 50));
    assert!(rt; last.time_of(1 << 50) == 0);
    assert!(rt; Timeline::new((1 << 50) + 1) == None);
    Ok(())
}
