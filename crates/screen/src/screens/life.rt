// The beginning and the end of a screen.
ghost use Rattle.std.specs.Prelude.{◌≡◌, is_ok, IfOk, MatchResult};
ghost use Rattle.refusal.specs.declared.refusals.Refusal.TheVariants.{InUse};
ghost use Rattle.ssd1329.specs.Meaning.{wires};
ghost use Rattle.screen.specs.Lives.{Begins};
ghost use Rattle.screen.specs.Screens.{fresh_link, shows, fresh_screen};

use super::{Owed, Screen};
use drawing::Canvas;
use link::Link;
use refusal::{HandedBack, Refusal};
use ssd1329::Wiring;

impl<L: Link> Screen<L> {
    // A fresh screen over a link that is closed and has taken nothing; another link is handed back.
    pub fn new(wiring: Wiring, link: L) -> Result<Screen<L>, HandedBack<L>>
        ensures judged { is_ok result ≡ fresh_link (L.means link) }
        ensures made { MatchResult result (λ s. shows L.Link s ≡ fresh_screen (wires wiring) (L.means link)) (λ e. e.refusal ≡ InUse) }
        ensures begins { IfOk result (λ s. Begins L.Link s) }
        ensures kept { MatchResult result (λ s. s.link ≡ link) (λ e. e.value ≡ link) }
    {
        if link.left().is_some() || link.taken() > 0 {
            return Err(HandedBack {
                refusal: Refusal::InUse,
                value: link,
            });
        }
        Ok(Screen {
            wiring,
            link,
            canvas: Canvas::new(),
            lit: false,
            owed: Owed {
                remap: wiring.remap() != 0,
                offset: wiring.offset() != 0,
            },
        })
    }

    // The link, at the end of the screen's life.
    pub fn into_link(self) -> L
        ensures { result ≡ self.link }
    {
        self.link
    }
}
