// The allowance and the side-by-side home.
use crate::refused;
use homes::allowance::Allowance;
use homes::plain::Plain;
use homes::side_by_side::SideBySide;
use homes::write_once::WriteOnce;
use interfaces::fault::{Cause, Fault};
use interfaces::home::Home;
use std::test::Fail;

#[test]
fn three_beside_a_spent_allowance_over_three(rt: HostRuntime) {
    let mut low = [0; 48];
    let mut high = [0; 48];
    let spent = Allowance::new(Plain::new(&mut high), 0);
    let mut home = SideBySide::new(Plain::new(&mut low), spent);
    let fault = Fault {
        cause: Cause::AllowanceSpent,
        depth: 1,
        number: 2,
    };
    assert_eq!(rt; home.count(), 6);
    assert_eq!(rt; home.write(5, [1; 16]), Err(fault));
    assert_eq!(rt; home.write(2, [1; 16]), Ok(()));
    assert_eq!(rt; home.write(6, [1; 16]), refused(Cause::Outside, 6));
}

#[test]
fn allowance_of_one(rt: HostRuntime) {
    let mut home = Allowance::new(WriteOnce::new(), 1);
    assert_eq!(rt; home.write(64, [1; 16]), refused(Cause::Outside, 64));
    assert_eq!(rt; home.writes_left(), 1);
    assert_eq!(rt; home.write(5, [1; 16]), Ok(()));
    assert_eq!(rt; home.writes_left(), 0);
    assert_eq!(rt; home.write(6, [2; 16]), refused(Cause::AllowanceSpent, 6));
    assert_eq!(rt; home.write(64, [2; 16]), refused(Cause::Outside, 64));
    let mut place = [0; 16];
    assert_eq!(rt; home.read(5, &mut place), Ok(()));
    assert_eq!(rt; place, [1; 16]);
}

#[test]
fn refused_below_is_not_counted(rt: HostRuntime) {
    let mut home = Allowance::new(Allowance::new(WriteOnce::new(), 4_294_967_295), 2);
    assert_eq!(rt; home.write(7, [1; 16]), Ok(()));
    let fault = Fault {
        cause: Cause::AlreadyWritten,
        depth: 2,
        number: 7,
    };
    assert_eq!(rt; home.write(7, [2; 16]), Err(fault));
    assert_eq!(rt; home.writes_left(), 1);
}

#[test]
fn counts_above_65535(rt: HostRuntime) -> Result<(), Fail> {
    let mut low = vec![in rt.alloc(); 0; 1_048_544]?;
    let mut high = [0; 48];
    let mut home = SideBySide::new(Plain::new(&mut low), Plain::new(&mut high));
    assert_eq!(rt; home.count(), 65_535);
    assert_eq!(rt; home.write(65_534, [1; 16]), Ok(()));
    assert_eq!(rt;
        home.write(65_535, [2; 16]),
        refused(Cause::Outside, 65_535)
    );
    Ok(())
}
