// Screens by example; docs/DRAWING.md has the rules.
use crate::screens::Screen;
use drawing::Pen;
use link::{Link, Panel};
use refusal::Refusal;
use ssd1329::Wiring;
use std::test::Fail;

#[test]
fn a_link_that_is_in_use_is_handed_back(rt: HostRuntime) -> Result<(), Fail> {
    let mut panel = Panel::new(vec![in rt.alloc(); 0u8; 8192]?, 100);
    assert_eq!(rt; panel.open(7), Ok(7));
    match Screen::new(Wiring::plain(), panel) {
        Ok(_) => Err(Fail::new("taken")),
        Err(back) => {
            assert_eq!(rt; back.refusal, Refusal::InUse);
            assert_eq!(rt; back.value.left(), Some(7));
            Ok(())
        }
    }
}

#[test]
fn a_screen_draws_and_gives_its_link_back(rt: HostRuntime) -> Result<(), Fail> {
    let panel = Panel::new(vec![in rt.alloc(); 0u8; 8192]?, 100);
    let mut screen = Screen::new(Wiring::plain(), panel).map_err(Refusal::from)?;
    let pen = Pen::new();
    assert_eq!(rt; screen.bar(&pen, 3, 5, 2, 1), Ok(()));
    assert_eq!(rt; screen.gray(4, 5), Ok(15));
    assert_eq!(rt; screen.gray(5, 5), Ok(0));
    assert_eq!(rt; screen.dot(&pen, 2000, 0), Err(Refusal::Position));
    assert_eq!(rt; screen.into_link().room(), 100);
    Ok(())
}
