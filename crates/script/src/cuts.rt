// Where a text is parted.
ghost use Rattle.std.specs.Prelude.{◌≡◌, ◌<◌, [], ◌∷◌, ◌==◌, length, position, MatchOption, IfSome};
ghost use Rattle.script.specs.Parts.{parts};

fn first_mark(text: &[u8], mark: u8) -> Option<usize>
    ensures { result ≡ position (λ b. b == mark) text.now }
{
    text.iter().position(|b| *b == mark)
}

// The text before the first byte that is the mark, and the text after it.
#[tactic(auto, using(crate::proofs::Cutting::cuts))]
pub fn cut(text: &[u8], mark: u8) -> Option<(&[u8], &[u8])>
    ensures parted { MatchOption result (parts mark text.now ≡ text.now ∷ [])
        (λ cut. parts mark text.now ≡ cut.0.now ∷ parts mark cut.1.now) }
    ensures shorter { IfSome result (λ cut. length cut.1.now < length text.now) }
{
    let place = first_mark(text, mark)?;
    Some((&text[..place], &text[place + 1..]))
}
