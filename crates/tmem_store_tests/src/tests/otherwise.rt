//! What is answered otherwise is seen: a release that comes too late.
use super::signals::Signals;
use super::skipping::Skipping;
use std::test::Fail;
use std::time::Duration;

#[test]
fn a_release_tells_where_a_sync_was_not_held_until_then(rt: HostRuntime) -> Result<(), Fail> {
    let signals = Signals::new();
    // no sleep by it lasts
    let clock = Skipping::new(&rt, None, Duration::ZERO, 0);
    signals.hold_syncs(2);
    assert!(&rt; signals.release());
    signals.meet_sync(&clock);
    // one was released, and this is the second
    signals.meet_sync(&clock);
    assert!(&rt; !signals.release());
    Ok(())
}
