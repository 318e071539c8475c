// Edges of the format; docs/LISTING.md has each way in which a line is bad.
use crate::lines::octet;
use crate::reads::{check as checked, replay};
use crate::record::Record;
use crate::writer::write_record;
use refusal::Refusal;
use ssd1329::{Controller, Shows, Transfer};
use std::test::Fail;

// The place of the first bad line, or none.
fn bad(text: &[u8]) -> Option<usize> {
    checked(text).err().map(|bad| bad.place)
}

#[test]
fn listings_are_taken(rt: HostRuntime) {
    assert_eq!(rt; bad(b""), None);
    assert_eq!(rt; bad(b"O\t0001\n"), None);
    assert_eq!(rt; bad(b"O\t9999\nZ\n"), None);
    assert_eq!(rt; bad(b"O\t0002\nC\tAF\nD\t09\nZ\nO\t0001\n"), None);
}

#[test]
fn bad_lines_are_found(rt: HostRuntime) {
    assert_eq!(rt; bad(b"O\t0000\n"), Some(0));
    assert_eq!(rt; bad(b"Z\n"), Some(0));
    assert_eq!(rt; bad(b"O\t0001"), Some(0));
    assert_eq!(rt; bad(b"O\t0001\nC\taf\n"), Some(7));
    assert_eq!(rt; bad(b"O\t0001\nO\t0001\n"), Some(7));
    assert_eq!(rt; bad(b"O\t0001\nZ\t\n"), Some(7));
    assert_eq!(rt; bad(b"O\t0001\n\n"), Some(7));
    assert_eq!(rt; bad(b"O\t0001\nC\tAF\nD\t00\n"), Some(12));
    assert_eq!(rt; bad(b"O\t0001\nZ\nC\tAF\n"), Some(9));
}

#[test]
fn a_text_may_be_65535_bytes_long(rt: HostRuntime) -> Result<(), Fail> {
    let long = vec![in rt.alloc(); b'Z'; 65536]?;
    assert_eq!(rt; bad(long.as_slice()), Some(65535));
    assert!(rt; long.len() == 65536);
    assert_eq!(rt; bad(&long.as_slice()[0..65535]), Some(0));
    Ok(())
}

#[test]
fn a_bad_text_gives_nothing(rt: HostRuntime) -> Result<(), Fail> {
    let mut c = Controller::blank(rt.alloc())?;
    assert!(rt; replay(b"O\t0009\nC\tAF\nZ\nZ\n", &mut c).is_err());
    assert_eq!(rt; c.shows(), Shows::Dark);
    assert!(rt; replay(b"O\t0009\nC\tAF\nZ\n", &mut c).is_ok());
    assert_eq!(rt; c.shows(), Shows::Lit);
    Ok(())
}

#[test]
fn two_digits_write_a_byte(rt: HostRuntime) {
    assert_eq!(rt; octet(b'0', b'9'), Some(9));
    assert_eq!(rt; octet(b'5', b'A'), Some(90));
    assert_eq!(rt; octet(b'F', b'F'), Some(255));
    assert_eq!(rt; octet(b'a', b'0'), None);
    assert_eq!(rt; octet(b'0', b'G'), None);
    assert_eq!(rt; octet(b'/', b'0'), None);
    assert_eq!(rt; octet(b'0', b':'), None);
    assert_eq!(rt; octet(b'@', b'0'), None);
}

#[test]
fn records_are_written(rt: HostRuntime) {
    let mut out = [b'.'; 13];
    assert_eq!(rt;
        write_record(&mut out, 0, Record::Open(10000)),
        Err(Refusal::SlotSize)
    );
    assert_eq!(rt; write_record(&mut out, 0, Record::Open(42)), Ok(7));
    assert_eq!(rt;
        write_record(&mut out, 7, Record::Sent(Transfer::Data(0x5A))),
        Ok(12)
    );
    assert_eq!(rt;
        write_record(&mut out, 12, Record::Close),
        Err(Refusal::Memory)
    );
    let text: &[u8] = b"O\t0042\nD\t5A\n.";
    assert!(rt; &out[0..13] == text);
}
