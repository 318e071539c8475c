// Flushes by example.
use crate::answers::{FlushFault, Place};
use crate::screens::Screen;
use drawing::Pen;
use link::{Link, Panel};
use refusal::Refusal;
use ssd1329::Wiring;
use std::process::Abort;
use std::test::Fail;

fn sent(answer: Result<u32, FlushFault>) -> Result<u32, Fail> {
    Ok(answer?)
}

fn first_left(
    rt: &impl Abort,
    answer: Result<u32, FlushFault>,
    count: u32,
    due: u32,
) -> Result<Option<Place>, Fail> {
    match answer {
        Err(FlushFault::LeftOver(left)) => {
            assert_eq!(rt; left.count, count);
            assert_eq!(rt; left.due, due);
            Ok(left.first)
        }
        _ => Err(Fail::new("nothing is left over")),
    }
}

fn refused(answer: Result<u32, FlushFault>) -> Result<Refusal, Fail> {
    match answer {
        Err(FlushFault::Refused(refusal)) => Ok(refusal),
        _ => Err(Fail::new("not refused")),
    }
}

// A new screen over a panel whose memory is full of fives.
fn screen_on(wiring: Wiring, transfers: u32, rt: &HostRuntime) -> Result<Screen<Panel>, Fail> {
    let panel = Panel::new(vec![in rt.alloc(); 0x55u8; 8192]?, transfers);
    Ok(Screen::new(wiring, panel).map_err(Refusal::from)?)
}

#[test]
fn one_slot_lights_a_new_screen(rt: HostRuntime) -> Result<(), Fail> {
    let mut screen = screen_on(Wiring::plain(), 20000, &rt)?;
    let pen = Pen::new();
    assert_eq!(rt; screen.dot(&pen, 127, 127), Ok(()));
    assert_eq!(rt; sent(screen.flush(9999))?, 8199);
    assert_eq!(rt; sent(screen.flush(9999))?, 0);
    assert_eq!(rt; screen.bar(&pen, 4, 7, 4, 2), Ok(()));
    assert_eq!(rt; sent(screen.flush(20))?, 11);
    let panel = screen.into_link();
    assert_eq!(rt; panel.dot(&Wiring::plain(), 127, 127), Ok(15));
    assert_eq!(rt; panel.dot(&Wiring::plain(), 126, 127), Ok(0));
    assert_eq!(rt; panel.dot(&Wiring::plain(), 4, 8), Ok(15));
    assert_eq!(rt; panel.dot(&Wiring::plain(), 8, 8), Ok(0));
    assert_eq!(rt; panel.room(), 20000 - 8199 - 11);
    Ok(())
}

#[test]
fn a_cut_flush_tells_where_it_goes_on(rt: HostRuntime) -> Result<(), Fail> {
    let mut screen = screen_on(Wiring::plain(), 20000, &rt)?;
    assert_eq!(rt;
        first_left(&rt, screen.flush(100), 100, 8105)?,
        Some(Place {
            line: 1,
            column: 23,
        })
    );
    assert_eq!(rt;
        first_left(&rt, screen.flush(7), 1, 8105)?,
        Some(Place {
            line: 1,
            column: 23,
        })
    );
    assert_eq!(rt;
        first_left(&rt, screen.flush(8), 8, 8104)?,
        Some(Place {
            line: 1,
            column: 24,
        })
    );
    assert_eq!(rt; sent(screen.flush(9999))?, 8104 + 6 + 6 + 1);
    Ok(())
}

#[test]
fn a_wiring_costs_its_settings_once(rt: HostRuntime) -> Result<(), Fail> {
    let wiring = Wiring::new(true, true, true, 5)?;
    let mut screen = screen_on(wiring, 20000, &rt)?;
    let pen = Pen::new();
    assert_eq!(rt; screen.dot(&pen, 3, 9), Ok(()));
    assert_eq!(rt;
        first_left(&rt, screen.flush(2), 1, 8192)?,
        Some(Place { line: 0, column: 0 })
    );
    assert_eq!(rt;
        first_left(&rt, screen.flush(4), 3, 8192)?,
        Some(Place { line: 0, column: 0 })
    );
    assert_eq!(rt; sent(screen.flush(9999))?, 8201);
    assert_eq!(rt; screen.dot(&pen, 4, 9), Ok(()));
    assert_eq!(rt; sent(screen.flush(8))?, 8);
    let panel = screen.into_link();
    assert_eq!(rt; panel.dot(&wiring, 3, 9), Ok(15));
    assert_eq!(rt; panel.dot(&wiring, 4, 9), Ok(15));
    assert_eq!(rt; panel.dot(&wiring, 5, 9), Ok(0));
    Ok(())
}

#[test]
fn a_flush_that_is_refused_sends_nothing(rt: HostRuntime) -> Result<(), Fail> {
    let mut screen = screen_on(Wiring::plain(), 8, &rt)?;
    assert_eq!(rt; refused(screen.flush(0))?, Refusal::SlotSize);
    assert_eq!(rt; refused(screen.flush(10000))?, Refusal::SlotSize);
    assert_eq!(rt;
        first_left(&rt, screen.flush(9999), 8, 8191)?,
        Some(Place { line: 0, column: 1 })
    );
    assert_eq!(rt; refused(screen.flush(1))?, Refusal::NoRoom);
    Ok(())
}
