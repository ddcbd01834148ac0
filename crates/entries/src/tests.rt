// Lines that give an entry, and lines that do not.
use super::*;

const BODY: [u8; 16] = [
    0x00, 0x11, 0x22, 0x33, 0x44, 0x55, 0x66, 0x77, 0x88, 0x99, 0xAA, 0xBB, 0xCC, 0xDD, 0xEE, 0xFF,
];

const SEVEN: Entry = Entry {
    record: 7,
    body: BODY,
};

const LARGEST: Entry = Entry {
    record: 65_535,
    body: BODY,
};

#[test]
fn both_cases_of_letters(rt: HostRuntime) {
    assert_eq!(rt;
        read_entry(b"7 00112233445566778899AABBCCDDEEFF"),
        Ok(SEVEN)
    );
    assert_eq!(rt;
        read_entry(b"07 00112233445566778899aabbccddeeff"),
        Ok(SEVEN)
    );
}

#[test]
fn one_carriage_return(rt: HostRuntime) {
    assert_eq!(rt;
        read_entry(b"7 00112233445566778899AABBCCDDEEFF\r"),
        Ok(SEVEN)
    );
    assert_eq!(rt;
        read_entry(b"7 00112233445566778899AABBCCDDEEFF\r\r"),
        Err(BadLine::WrongLength)
    );
    assert_eq!(rt; read_entry(b"\r"), Err(BadLine::NoRecord));
}

#[test]
fn largest_record(rt: HostRuntime) {
    assert_eq!(rt;
        read_entry(b"65535 00112233445566778899AABBCCDDEEFF"),
        Ok(LARGEST)
    );
    assert_eq!(rt;
        read_entry(b"00065535 00112233445566778899AABBCCDDEEFF"),
        Ok(LARGEST)
    );
    assert_eq!(rt;
        read_entry(b"65536 00112233445566778899AABBCCDDEEFF"),
        Err(BadLine::RecordTooLarge)
    );
    assert_eq!(rt;
        read_entry(b"99999999999999999999999"),
        Err(BadLine::RecordTooLarge)
    );
}

#[test]
fn refusals(rt: HostRuntime) {
    assert_eq!(rt; read_entry(b""), Err(BadLine::NoRecord));
    assert_eq!(rt; read_entry(b" 7 00"), Err(BadLine::NoRecord));
    assert_eq!(rt; read_entry(b"7"), Err(BadLine::NoBlank));
    assert_eq!(rt; read_entry(b"7,00"), Err(BadLine::NoBlank));
    assert_eq!(rt; read_entry(b"7 0011"), Err(BadLine::WrongLength));
    assert_eq!(rt;
        read_entry(b"7  0112233445566778899AABBCCDDEEFF"),
        Err(BadLine::NotHexadecimal)
    );
    assert_eq!(rt;
        read_entry(b"7 00112233445566778899AABBCCDDEEFG"),
        Err(BadLine::NotHexadecimal)
    );
}

#[test]
fn spells(rt: HostRuntime) {
    assert_eq!(rt; spell_body(&BODY), *b"00112233445566778899AABBCCDDEEFF");
}
