// Edges of the rules; docs/CONTROLLER.md and docs/GLASS.md have the numbers.
use crate::controller::Controller;
use crate::shows::Shows;
use crate::transfer::Transfer;
use crate::wiring::Wiring;
use refusal::Refusal;
use std::alloc::Global;
use std::test::Fail;

// A controller at reset over bytes of one value.
fn filled(heap: Global, byte: u8) -> Result<Controller, Fail> {
    Ok(Controller::new(vec![in heap; byte; 8192]?).map_err(Refusal::from)?)
}

fn commands(c: &mut Controller, bytes: &[u8]) {
    for &b in bytes {
        c.step(Transfer::Command(b));
    }
}

#[test]
fn only_8192_bytes_are_a_memory(rt: HostRuntime) -> Result<(), Fail> {
    let Err(back) = Controller::new(vec![in rt.alloc(); 7u8; 8191]?) else {
        return Err(Fail::new("8191 bytes taken"));
    };
    assert_eq!(rt; back.refusal, Refusal::Memory);
    assert_eq!(rt; back.value.len(), 8191);
    Ok(())
}

#[test]
fn a_blank_controller_is_dark_and_then_shows_zeros(rt: HostRuntime) -> Result<(), Fail> {
    let mut c = Controller::blank(rt.alloc())?;
    assert_eq!(rt; c.shows(), Shows::Dark);
    commands(&mut c, &[0xAF]);
    assert_eq!(rt; c.shows(), Shows::Lit);
    assert_eq!(rt; c.dot(&Wiring::plain(), 0, 0), Ok(0));
    Ok(())
}

#[test]
fn a_shift_above_127_is_refused(rt: HostRuntime) -> Result<(), Fail> {
    assert!(rt; Wiring::new(true, true, true, 127).is_ok());
    let Err(e) = Wiring::new(false, false, false, 128) else {
        return Err(Fail::new("shift 128 taken"));
    };
    assert_eq!(rt; e.number(), 11);
    Ok(())
}

#[test]
fn a_wiring_needs_its_settings(rt: HostRuntime) -> Result<(), Fail> {
    let w = Wiring::new(true, true, true, 5)?;
    assert_eq!(rt; w.remap(), 0x53);
    assert_eq!(rt; w.offset(), 5);
    let w = Wiring::new(false, false, false, 5)?;
    assert_eq!(rt; w.remap(), 0);
    assert_eq!(rt; w.offset(), 123);
    Ok(())
}

#[test]
fn dots_outside_the_glass_are_refused(rt: HostRuntime) -> Result<(), Fail> {
    let mut c = filled(rt.alloc(), 0x21)?;
    commands(&mut c, &[0xAF]);
    let w = Wiring::plain();
    assert_eq!(rt; c.dot(&w, 126, 127), Ok(1));
    assert_eq!(rt; c.dot(&w, 127, 127), Ok(2));
    assert_eq!(rt; c.dot(&w, 128, 0), Err(Refusal::Position));
    assert_eq!(rt; c.dot(&w, 0, 128), Err(Refusal::Position));
    Ok(())
}

#[test]
fn a_data_byte_for_an_operand_leads_astray(rt: HostRuntime) -> Result<(), Fail> {
    let mut c = filled(rt.alloc(), 0xFF)?;
    commands(&mut c, &[0xAF, 0xA2]);
    assert_eq!(rt; c.shows(), Shows::Lit);
    c.step(Transfer::Data(1));
    assert_eq!(rt; c.shows(), Shows::Astray);
    commands(&mut c, &[0xAF]);
    assert_eq!(rt; c.shows(), Shows::Astray);
    assert_eq!(rt; c.dot(&Wiring::plain(), 0, 0), Ok(0));
    c.reset();
    assert_eq!(rt; c.shows(), Shows::Dark);
    commands(&mut c, &[0xAF]);
    assert_eq!(rt; c.dot(&Wiring::plain(), 0, 0), Ok(15));
    Ok(())
}

#[test]
fn a_held_byte_is_stored_or_dropped(rt: HostRuntime) -> Result<(), Fail> {
    let mut c = filled(rt.alloc(), 0)?;
    c.step(Transfer::Data(0x5A));
    c.end_slot();
    c.step(Transfer::Data(0xC3));
    commands(&mut c, &[0xE3]);
    let memory = c.into_memory();
    assert!(rt; memory.len() == 8192);
    assert_eq!(rt; memory[0], 0xC3);
    assert_eq!(rt; memory[1], 0);
    Ok(())
}

#[test]
fn row_text_lists_dots_above_zero(rt: HostRuntime) -> Result<(), Fail> {
    let mut c = filled(rt.alloc(), 0)?;
    commands(&mut c, &[0xA0, 0x03, 0xAF]);
    c.step(Transfer::Data(0x5A));
    commands(&mut c, &[0xE3]);
    let w = Wiring::plain();
    let mut out = [b'.'; 1408];
    assert_eq!(rt; c.row_text(&w, 0, &mut out), Ok(17));
    let text: &[u8] = b"0\t126\t5\n0\t127\t10\n";
    assert!(rt; &out[0..17] == text);
    assert_eq!(rt; out[17], b'.');
    assert_eq!(rt; c.row_text(&w, 127, &mut out), Ok(0));
    assert_eq!(rt; c.row_text(&w, 128, &mut out[0..9]), Err(Refusal::Position));
    assert_eq!(rt;
        c.row_text(&w, 127, &mut out[0..1407]),
        Err(Refusal::Memory)
    );
    Ok(())
}
