// Scripts by example.
use crate::performs::perform;
use crate::screens::Screen;
use crate::scripts::{Answer, Call};
use drawing::Pen;
use link::Panel;
use picture::{GrayPicture, Picture as _};
use refusal::Refusal;
use ssd1329::Wiring;
use std::alloc::Global;
use std::test::Fail;

type Picture = GrayPicture<Vec<u8>>;

// An answer as the number of a caller: 0 accepted, 100 done, 200 ended, 300 no narrowing open.
fn code(answer: Answer) -> u32 {
    match answer {
        Answer::Judged(Ok(())) => 0,
        Answer::Judged(Err(refusal)) => u32::from(refusal.number()),
        Answer::Ended => 200,
        Answer::NoneOpen => 300,
        Answer::Flushed(Ok(_)) => 100,
        Answer::Flushed(Err(fault)) => u32::from(fault.number()),
    }
}

fn codes(heap: Global, answers: &Vec<Answer>) -> Result<Vec<u32>, Fail> {
    let mut all = Vec::new(heap);
    for answer in answers {
        all.push(code(*answer))?;
    }
    Ok(all)
}

#[test]
fn narrowings_nest_and_end_with_the_script(rt: HostRuntime) -> Result<(), Fail> {
    let heap = rt.alloc();
    let panel = Panel::new(vec![in heap; 0u8; 8192]?, 20000);
    let mut screen = Screen::new(Wiring::plain(), panel).map_err(Refusal::from)?;
    let picture = GrayPicture::new(vec![in heap; 0x9Au8]?, 2, 1).map_err(Refusal::from)?;
    let script: Vec<Call<Picture>> = vec![in heap;
        Call::Narrow(0, 0, 8, 8),
        Call::Ink(7),
        Call::Narrow(4, 4, 255, 256),
        Call::Narrow(4, 4, 255, 255),
        Call::Bar(0, 0, 128, 128),
        Call::End,
        Call::Dot(0, 0),
        Call::End,
        Call::End,
        Call::Dot(20, 0),
        Call::Place(picture, 30, 0),
        Call::Flush(9999),
        Call::Flush(0),
        Call::Narrow(0, 0, 1, 1),
        Call::Ink(1),
    ]?;
    let mut pen = Pen::new();
    let answers = perform(heap, &mut screen, &mut pen, script.as_slice())?;
    let wanted: Vec<u32> = vec![in heap; 0, 0, 7, 0, 0, 200, 0, 200, 300, 0, 0, 100, 5, 0, 0]?;
    assert!(rt; codes(heap, &answers)? == wanted);
    assert_eq!(rt; screen.dot(&pen, 40, 0), Ok(()));
    assert_eq!(rt; screen.gray(40, 0), Ok(15));
    let panel = screen.into_link();
    assert_eq!(rt; panel.dot(&Wiring::plain(), 0, 0), Ok(7));
    assert_eq!(rt; panel.dot(&Wiring::plain(), 7, 7), Ok(7));
    assert_eq!(rt; panel.dot(&Wiring::plain(), 3, 4), Ok(0));
    assert_eq!(rt; panel.dot(&Wiring::plain(), 8, 7), Ok(0));
    assert_eq!(rt; panel.dot(&Wiring::plain(), 20, 0), Ok(15));
    assert_eq!(rt; panel.dot(&Wiring::plain(), 31, 0), Ok(10));
    assert_eq!(rt; panel.dot(&Wiring::plain(), 40, 0), Ok(0));
    Ok(())
}
