// The plain and the write-once home.
use crate::refused;
use homes::plain::Plain;
use homes::write_once::WriteOnce;
use interfaces::fault::Cause;
use interfaces::home::Home;
use std::test::Fail;

#[test]
fn empty_home(rt: HostRuntime) {
    let mut bytes = [0; 15];
    let mut home = Plain::new(&mut bytes);
    let mut place = [9; 16];
    assert_eq!(rt; home.count(), 0);
    assert_eq!(rt; home.read(0, &mut place), refused(Cause::Outside, 0));
    assert_eq!(rt; place, [9; 16]);
    assert_eq!(rt; home.write(0, [1; 16]), refused(Cause::Outside, 0));
}

#[test]
fn records_65534_and_65535(rt: HostRuntime) -> Result<(), Fail> {
    let mut bytes = vec![in rt.alloc(); 0; 1_048_592]?;
    {
        let mut home = Plain::new(&mut bytes);
        assert_eq!(rt; home.count(), 65_535);
        assert_eq!(rt; home.write(65_534, [1; 16]), Ok(()));
        assert_eq!(rt;
            home.write(65_535, [2; 16]),
            refused(Cause::Outside, 65_535)
        );
        let mut place = [0; 16];
        assert_eq!(rt; home.read(65_534, &mut place), Ok(()));
        assert_eq!(rt; place, [1; 16]);
    }
    assert_eq!(rt; bytes.get(1_048_543), Some(&0));
    assert_eq!(rt; bytes.get(1_048_544), Some(&1));
    assert_eq!(rt; bytes.get(1_048_559), Some(&1));
    assert_eq!(rt; bytes.get(1_048_560), Some(&0));
    Ok(())
}

#[test]
fn one_write_each(rt: HostRuntime) {
    let mut home = WriteOnce::new();
    let mut place = [0; 16];
    assert_eq!(rt; home.count(), 64);
    assert_eq!(rt; home.read(63, &mut place), Ok(()));
    assert_eq!(rt; place, [255; 16]);
    assert_eq!(rt; home.write(63, [1; 16]), Ok(()));
    assert_eq!(rt; home.write(63, [2; 16]), refused(Cause::AlreadyWritten, 63));
    assert_eq!(rt; home.write(64, [3; 16]), refused(Cause::Outside, 64));
    assert_eq!(rt; home.write(62, [4; 16]), Ok(()));
    assert_eq!(rt; home.read(63, &mut place), Ok(()));
    assert_eq!(rt; place, [1; 16]);
}
