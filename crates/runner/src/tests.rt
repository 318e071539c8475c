// The words that ask for something.
use crate::wanted::{NotWanted, Wanted};

#[test]
fn a_word_asks_for_what_it_names(rt: HostRuntime) {
    assert_eq!(rt; "answers".parse(), Ok(Wanted::Answers));
    assert_eq!(rt; "glass".parse(), Ok(Wanted::Glass));
    assert_eq!(rt; "picture".parse(), Ok(Wanted::Image));
    assert_eq!(rt; "image".parse::<Wanted>(), Err(NotWanted));
    assert_eq!(rt; "Glass".parse::<Wanted>(), Err(NotWanted));
}
