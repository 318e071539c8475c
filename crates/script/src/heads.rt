// The first two lines of a script. Reading them takes no memory, so none is ever wanting.
ghost use Rattle.std.specs.Prelude.{◌≡◌, IfErr};
ghost use Rattle.script.specs.declared.fault.Fault.TheVariants.{Unreadable};
ghost use Rattle.script.specs.Faults.{Reads, Takes};
ghost use Rattle.script.specs.Heads.{card_by, card, buffer};

use crate::fault::Fault;
use crate::fields::Fields;
use crate::script::Card;
use crate::words::Marks;

fn take_card(fields: &mut Fields<'_>) -> Result<Card, Fault>
    ensures said { Takes (λ x. x) card_by fields.old fields.new result }
    ensures plain { IfErr result (λ fault. fault ≡ Unreadable) }
{
    let Marks {
        mirrored,
        flipped,
        comb,
    } = fields.read()?;
    let shift = fields.read()?;
    Ok(Card {
        mirrored,
        flipped,
        comb,
        shift,
    })
}

// The line of the module's card, without its newline.
pub fn read_card(text: &[u8]) -> Result<Card, Fault>
    ensures said { Reads (λ x. x) (card text.now) result }
    ensures plain { IfErr result (λ fault. fault ≡ Unreadable) }
{
    let mut fields = Fields::of(text);
    fields.word(b"card")?;
    let card = take_card(&mut fields)?;
    fields.end(card)
}

// The line of the buffer's size, without its newline.
pub fn read_buffer(text: &[u8]) -> Result<u32, Fault>
    ensures said { Reads (λ x. x) (buffer text.now) result }
    ensures plain { IfErr result (λ fault. fault ≡ Unreadable) }
{
    let mut fields = Fields::of(text);
    fields.word(b"buffer")?;
    let bytes = fields.read()?;
    fields.end(bytes)
}
