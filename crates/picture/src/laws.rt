// Laws that hold of every picture.
ghost use Rattle.picture.specs.Laws.{InverseTwice, CropOfCrop, CropOfInverse};

// A name for the laws, so that the check asks for their proofs; it answers 0.
pub fn pictures_have_their_laws() -> u8
    ensures twice { InverseTwice }
    ensures nested { CropOfCrop }
    ensures inverted { CropOfInverse }
{
    0
}
