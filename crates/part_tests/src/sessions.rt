// A session that loads a home.
use entries::BadLine;
use homes::write_once::WriteOnce;
use interfaces::fault::{Cause, Fault};
use loading::reply::Reply;
use loading::session::Session;

#[test]
fn replies_and_rows(rt: HostRuntime) {
    let mut session = Session::new(WriteOnce::new());
    let line = b"63 000102030405060708090a0b0c0d0e0f";
    let fault = Fault::new(Cause::AlreadyWritten, 63);
    assert_eq!(rt; session.line(b""), Reply::Bad(BadLine::NoRecord));
    assert_eq!(rt; session.row(63), None);
    assert_eq!(rt; session.line(line), Reply::Written { record: 63 });
    assert_eq!(rt; session.line(line), Reply::Refused { record: 63, fault });
    assert_eq!(rt;
        session.row(63),
        Some([0, 1, 2, 3, 4, 5, 6, 7, 8, 9, 10, 11, 12, 13, 14, 15])
    );
    assert_eq!(rt; session.row(62), None);
    assert_eq!(rt; session.row(65_535), None);
}
