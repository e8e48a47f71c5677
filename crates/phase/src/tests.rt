//! Tests of the definitions, by rows that were made by hand.
use super::*;
use Phase::{Capture, Complete, Prepare, Resolve, Rest};
use std::test::Fail;

const PHASES: [Phase; 5] = [Rest, Prepare, Resolve, Capture, Complete];

#[test]
fn cycle(rt: HostRuntime) -> Result<(), Fail> {
    for (at, phase) in PHASES.iter().enumerate() {
        assert_eq!(rt; phase.next(), PHASES[(at + 1) % 5]);
    }
    Ok(())
}

/// Open calls that started in one phase, and one that started in another.
#[test]
fn leaving(rt: HostRuntime) -> Result<(), Fail> {
    for phase in PHASES {
        let guarded = matches!(&phase, Prepare | Resolve | Complete);
        for other in PHASES {
            let mut active = Active::new();
            assert!(rt; active.may_leave(phase).is_ok(), "none is open");
            active.set(0, phase);
            active.set(63, phase);
            assert!(rt; active.may_leave(phase).is_ok(), "all started here");
            active.set(5, other);
            let is_left = !guarded || other == phase;
            assert_eq!(rt;
                active.may_leave(phase).is_ok(),
                is_left,
                "{phase} beside {other}"
            );
            active.clear(5);
            assert!(rt; active.may_leave(phase).is_ok(), "it is closed");
        }
    }
    Ok(())
}

#[test]
fn restarted(rt: HostRuntime) -> Result<(), Fail> {
    let mut active = Active::new();
    active.set(3, Resolve);
    active.set(3, Capture);
    assert!(rt; active.may_leave(Resolve).is_err());
    active.restart();
    assert!(rt; active.may_leave(Prepare).is_err());
    assert_eq!(rt; active.sessions(), 64);
    Ok(())
}
