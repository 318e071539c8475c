// Pictures, as the fields of a line say them. The allocator is handed to what
// allocates: most lines allocate nothing, so their fields do not hold it.
ghost use Rattle.script.specs.Figures.{bits, grays, base, shade, figure_by, figure};
ghost use Rattle.script.specs.Meanings.{base_kind, shade_kind, figure_kind, made};
ghost use Rattle.script.specs.Faults.{TakesOrRefuses};

use super::{Base, Figure, Shade};
use crate::fault::{Fault, Unmade};
use crate::fields::Fields;
use crate::numbers::as_byte;
use crate::shapes::Part;
use crate::words::Kind;
use picture::{BitPicture, Crop, Either, GrayPicture, Inverse};
use std::alloc::Global;

fn take_bits(heap: Global, fields: &mut Fields<'_>) -> Result<Base, Unmade>
    ensures { TakesOrRefuses (made base_kind) Err bits fields.old fields.new result }
{
    let size = fields.extent()?;
    let gray = as_byte(fields.read()?);
    let bytes = fields.bytes(heap)?;
    let picture = BitPicture::new(bytes, size.width, size.height, gray)?;
    Ok(Either::Left(picture))
}

fn take_grays(heap: Global, fields: &mut Fields<'_>) -> Result<Base, Unmade>
    ensures { TakesOrRefuses (made base_kind) Err grays fields.old fields.new result }
{
    let size = fields.extent()?;
    let bytes = fields.bytes(heap)?;
    let picture = GrayPicture::new(bytes, size.width, size.height)?;
    Ok(Either::Right(picture))
}

// Dots, by the word that came before them.
fn take_base(heap: Global, kind: Kind, fields: &mut Fields<'_>) -> Result<Base, Unmade>
    ensures { TakesOrRefuses (made base_kind) Err (base kind) fields.old fields.new result }
{
    match kind {
        Kind::Bits => take_bits(heap, fields),
        Kind::Grays => take_grays(heap, fields),
        Kind::Inverse | Kind::Crop => Err(Unmade::NotRead(Fault::Unreadable)),
    }
}

fn take_inverse(heap: Global, fields: &mut Fields<'_>) -> Result<Shade, Unmade>
    ensures { TakesOrRefuses (made shade_kind) Err (shade Kind.Inverse) fields.old fields.new result }
{
    let kind = fields.read()?;
    let base = take_base(heap, kind, fields)?;
    Ok(Either::Right(Inverse::new(base)))
}

// Dots or their inverse, by the word that came before them.
fn take_shade(heap: Global, kind: Kind, fields: &mut Fields<'_>) -> Result<Shade, Unmade>
    ensures { TakesOrRefuses (made shade_kind) Err (shade kind) fields.old fields.new result }
{
    match kind {
        Kind::Inverse => take_inverse(heap, fields),
        _ => Ok(Either::Left(take_base(heap, kind, fields)?)),
    }
}

fn take_crop(heap: Global, fields: &mut Fields<'_>) -> Result<Figure, Unmade>
    ensures { TakesOrRefuses (made figure_kind) Err (figure_by Kind.Crop) fields.old fields.new result }
{
    let Part { left, top, size } = fields.part()?;
    let kind = fields.read()?;
    let shade = take_shade(heap, kind, fields)?;
    let crop = Crop::new(shade, left, top, size.width, size.height)?;
    Ok(Either::Right(crop))
}

// A picture, which a word begins.
pub fn take_figure(heap: Global, fields: &mut Fields<'_>) -> Result<Figure, Unmade>
    ensures { TakesOrRefuses (made figure_kind) Err figure fields.old fields.new result }
{
    match fields.read()? {
        Kind::Crop => take_crop(heap, fields),
        kind => Ok(Either::Left(take_shade(heap, kind, fields)?)),
    }
}
