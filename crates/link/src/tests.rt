// Links by example; docs/LINKS.md has the rules.
use crate::links::Link;
use crate::panel::Panel;
use crate::recorder::ListingLink;
use refusal::Refusal;
use ssd1329::{Shows, Transfer, Wiring};
use std::test::Fail;

// Stores one byte at line 0, column 0, and wakes the controller.
fn one_byte<L: Link>(link: &mut L) -> Result<(), Refusal> {
    link.open(4)?;
    link.send(Transfer::Data(0x5A))?;
    link.send(Transfer::Command(0xAF))?;
    link.close()
}

#[test]
fn checks_come_in_their_order(rt: HostRuntime) -> Result<(), Fail> {
    let mut p = Panel::new(vec![in rt.alloc(); 0u8; 8192]?, 1);
    assert_eq!(rt; p.open(0), Err(Refusal::SlotSize));
    assert_eq!(rt; p.send(Transfer::Data(0)), Err(Refusal::NoSlot));
    assert_eq!(rt; p.close(), Err(Refusal::NoSlot));
    assert_eq!(rt; p.open(9999), Ok(1));
    assert_eq!(rt; p.open(10000), Err(Refusal::SlotSize));
    assert_eq!(rt; p.open(1), Err(Refusal::InUse));
    assert_eq!(rt; p.send(Transfer::Data(0)), Ok(()));
    assert_eq!(rt; p.send(Transfer::Data(0)), Err(Refusal::GrantSpent));
    assert_eq!(rt; p.close(), Ok(()));
    assert_eq!(rt; p.open(1), Err(Refusal::NoRoom));
    assert_eq!(rt; p.taken(), 1);
    Ok(())
}

#[test]
fn other_memory_takes_nothing(rt: HostRuntime) -> Result<(), Fail> {
    let memory = vec![in rt.alloc(); 3u8; 8191]?;
    assert_eq!(rt; Panel::check(memory.as_slice()), Err(Refusal::Memory));
    let mut p = Panel::new(memory, 100);
    assert_eq!(rt; p.room(), 0);
    assert_eq!(rt; p.open(5), Err(Refusal::NoRoom));
    assert_eq!(rt; p.shows(), Shows::Dark);
    assert_eq!(rt; p.into_memory().len(), 8191);
    let buffer = vec![in rt.alloc(); 0u8; 65536]?;
    assert_eq!(rt; ListingLink::check(buffer.as_slice()), Err(Refusal::Memory));
    assert_eq!(rt; ListingLink::new(buffer).room(), 0);
    Ok(())
}

#[test]
fn a_buffer_has_room_for_whole_slots(rt: HostRuntime) -> Result<(), Fail> {
    assert_eq!(rt; ListingLink::new(vec![in rt.alloc(); 0u8; 13]?).room(), 0);
    let mut l = ListingLink::new(vec![in rt.alloc(); 0u8; 23]?);
    assert_eq!(rt; l.room(), 2);
    assert_eq!(rt; l.open(9), Ok(2));
    assert_eq!(rt; l.room(), 2);
    assert_eq!(rt; l.send(Transfer::Data(0x5A)), Ok(()));
    assert_eq!(rt; l.room(), 1);
    assert_eq!(rt; l.close(), Ok(()));
    assert_eq!(rt; l.room(), 0);
    let text: &[u8] = b"O\t0002\nD\t5A\nZ\n";
    assert!(rt; l.text() == text);
    Ok(())
}

#[test]
fn a_panel_shows_what_it_was_sent(rt: HostRuntime) -> Result<(), Fail> {
    let mut p = Panel::new(vec![in rt.alloc(); 0u8; 8192]?, 100);
    assert_eq!(rt; one_byte(&mut p), Ok(()));
    assert_eq!(rt; p.shows(), Shows::Lit);
    assert_eq!(rt; p.dot(&Wiring::plain(), 0, 0), Ok(10));
    assert_eq!(rt; p.dot(&Wiring::plain(), 1, 0), Ok(5));
    let mut l = ListingLink::new(vec![in rt.alloc(); 0u8; 100]?);
    assert_eq!(rt; one_byte(&mut l), Ok(()));
    assert_eq!(rt; l.taken(), 2);
    Ok(())
}
