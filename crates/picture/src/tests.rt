// The examples of docs/PICTURES.md.
ghost use Rattle.std.specs.Prelude.{◌≡◌};
ghost use Rattle.picture.specs.Packed.{bit_refusal};

use crate::{BitPicture, Crop, Either, GrayPicture, Inverse, Picture};
use refusal::Refusal;
use std::test::Fail;

const BITS: &[u8] = &[0xa0, 0x40, 0x01, 0x80];

const GRAYS: &[u8] = &[0x1f, 0x50, 0xa7, 0xc0];

#[test]
fn a_bit_picture_has_its_gray_where_a_bit_is_1(rt: HostRuntime) -> Result<(), Fail> {
    let picture = BitPicture::new(BITS, 10, 2, 9).map_err(Refusal::from)?;
    assert_eq!(rt; picture.width(), 10);
    assert_eq!(rt; picture.height(), 2);
    assert_eq!(rt; picture.dot(2, 0)?, Some(9));
    assert_eq!(rt; picture.dot(3, 0)?, None);
    assert_eq!(rt; picture.dot(9, 0)?, Some(9));
    assert_eq!(rt; picture.dot(8, 1)?, Some(9));
    assert_eq!(rt; picture.dot(10, 0), Err(Refusal::OutsidePicture));
    Ok(())
}

#[test]
fn a_crop_of_a_bit_picture_is_its_right_edge(rt: HostRuntime) -> Result<(), Fail> {
    let picture = BitPicture::new(BITS, 10, 2, 9).map_err(Refusal::from)?;
    let crop = Crop::new(picture, 7, 0, 3, 2).map_err(Refusal::from)?;
    assert_eq!(rt; crop.dot(1, 0)?, None);
    assert_eq!(rt; crop.dot(2, 0)?, Some(9));
    assert_eq!(rt; crop.dot(0, 1)?, Some(9));
    assert_eq!(rt; crop.dot(3, 0), Err(Refusal::OutsidePicture));
    let inverse = Inverse::new(crop);
    assert_eq!(rt; inverse.dot(0, 1)?, Some(6));
    assert_eq!(rt; inverse.dot(2, 1)?, None);
    Ok(())
}

#[test]
fn an_inverse_has_15_less_the_gray(rt: HostRuntime) -> Result<(), Fail> {
    let picture = GrayPicture::new(GRAYS.to_vec(rt.alloc())?, 3, 2).map_err(Refusal::from)?;
    assert_eq!(rt; picture.dot(0, 0)?, Some(1));
    assert_eq!(rt; picture.dot(2, 1)?, Some(12));
    let inverse = Inverse::new(picture);
    assert_eq!(rt; inverse.dot(1, 0)?, Some(0));
    assert_eq!(rt; inverse.dot(2, 1)?, Some(3));
    assert_eq!(rt; inverse.into_inner().dot(1, 0)?, Some(15));
    Ok(())
}

#[test]
fn one_of_two_kinds_is_what_it_holds(rt: HostRuntime) -> Result<(), Fail> {
    let bits = BitPicture::new(BITS, 10, 2, 9).map_err(Refusal::from)?;
    let grays = GrayPicture::new(GRAYS, 3, 2).map_err(Refusal::from)?;
    let mut picture = Either::Left(bits);
    assert_eq!(rt; picture.width(), 10);
    assert_eq!(rt; picture.dot(9, 0)?, Some(9));
    picture = Either::Right(grays);
    assert_eq!(rt; picture.width(), 3);
    assert_eq!(rt; picture.dot(1, 1)?, Some(7));
    Ok(())
}

// It holds a part of anything: the type of a part asks nothing of what it is a part of.
#[derive(Drop)]
struct Held<P> {
    part: Crop<P>,
}

impl<P> Held<P> {
    fn into_part(self) -> Crop<P>
        ensures { result ≡ self.part }
    {
        self.part
    }
}

#[test]
fn a_part_can_be_held_where_no_picture_is_known(rt: HostRuntime) -> Result<(), Fail> {
    let grays = GrayPicture::new(GRAYS, 3, 2).map_err(Refusal::from)?;
    let part = Crop::new(grays, 1, 0, 2, 2).map_err(Refusal::from)?;
    let held = Held { part };
    assert_eq!(rt; held.into_part().dot(0, 1)?, Some(7));
    Ok(())
}

// The refusal of a bit picture over the example's bytes.
fn refused(width: u32, height: u32, gray: u8) -> Option<Refusal>
    ensures { result ≡ bit_refusal 4 width height gray }
{
    BitPicture::new(BITS, width, height, gray)
        .err()
        .map(|back| back.refusal)
}

#[test]
fn a_making_checks_the_shape_and_then_the_gray(rt: HostRuntime) {
    assert_eq!(rt; refused(16, 2, 15), None);
    assert_eq!(rt; refused(17, 2, 16), Some(Refusal::PictureShape));
    assert_eq!(rt; refused(10, 0, 16), Some(Refusal::PictureShape));
    assert_eq!(rt; refused(10, 2, 16), Some(Refusal::Gray));
}
