// Faults on their way up.
use interfaces::fault::{Cause, Fault, passed_up};
use std::test::Fail;

#[test]
fn depth_stops_at_255(rt: HostRuntime) {
    let mut fault = Fault {
        cause: Cause::Outside,
        depth: 253,
        number: 9,
    };
    for depth in [254, 255, 255] {
        fault = fault.deeper();
        assert_eq!(rt; fault.depth, depth);
    }
    assert_eq!(rt; passed_up(Err(fault)), Err(fault));
    assert_eq!(rt; passed_up(Ok(())), Ok(()));
}

#[test]
fn numbers_of_the_causes(rt: HostRuntime) {
    assert_eq!(rt; u8::from(Cause::Outside), 1);
    assert_eq!(rt; u8::from(Cause::AllowanceSpent), 2);
    assert_eq!(rt; u8::from(Cause::AlreadyWritten), 3);
}

#[test]
fn in_words(rt: HostRuntime) -> Result<(), Fail> {
    let fault = Fault {
        cause: Cause::AlreadyWritten,
        depth: 2,
        number: 63,
    };
    let words = format!(in rt.alloc(); "{fault}")?;
    assert!(rt; words.as_str() == "already written, at depth 2, record 63");
    Ok(())
}
