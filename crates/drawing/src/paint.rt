// Filling an area of the canvas with what a picture has for it. The picture and its corner are handed down side by side:
// in a struct each clause would be longer by its name.
ghost use Rattle.std.specs.Prelude.{◌≡◌, ◌<◌};
ghost use Rattle.picture.specs.Pictures.{Shade};
ghost use Rattle.drawing.specs.Clips.{area};
ghost use Rattle.drawing.specs.Drawing.{Drawn, placed, lined, clipped};

use crate::canvas::{Canvas, Dot};
use crate::clip::Clip;
use crate::corner::Corner;
use crate::span::Span;
use picture::Picture;

// What a picture at a corner has for a dot.
#[tactic(auto, unfolding(crate::specs::Drawing::placed))]
fn tint<P: Picture>(picture: &P, at: Corner, dot: Dot) -> Option<u8>
    ensures value { result ≡ placed (P.means picture.now) at.x.at at.y.at dot.x dot.y }
    ensures small { Shade result }
{
    let across = at.x.offset(dot.x)?;
    let down = at.y.offset(dot.y)?;
    picture.dot(across, down).unwrap_or(None)
}

impl Canvas {
    fn line<P: Picture>(&mut self, across: Span, y: usize, picture: &P, at: Corner)
        requires { y < 128 }
        ensures { Drawn self.old (lined (placed (P.means picture.now) at.x.at at.y.at) across.from across.to y) self.new }
    {
        for x in across.from as usize..across.to as usize {
            let dot = Dot { x, y };
            if let Some(gray) = tint(picture, at, dot) {
                self.put(dot, gray);
            }
        }
    }

    // Only dots of the clip are looked at. Places are counted, of no list.
    #[tactic(auto, using(crate::proofs::Steps::rule_more))]
    pub(crate) fn fill<P: Picture>(&mut self, clip: Clip, picture: &P, at: Corner)
        ensures { Drawn self.old (clipped (placed (P.means picture.now) at.x.at at.y.at) (area clip)) self.new }
    {
        for y in clip.down.from as usize..clip.down.to as usize {
            self.line(clip.across, y, picture, at);
        }
    }
}
