// What the fields of a line say, taken from the front.
ghost use Rattle.std.specs.Prelude.{◌≡◌, IfErr, vec_items};
ghost use Rattle.script.specs.declared.fault.Fault.TheVariants.{Unreadable};
ghost use Rattle.script.specs.Words.{word};
ghost use Rattle.script.specs.Readings.{field, corner, extent, part};
ghost use Rattle.script.specs.Faults.{Takes};
ghost use Rattle.script.specs.Hex.{bytes_of_hex};

use super::Fields;
use crate::fault::Fault;
use crate::field::Field;
use crate::hex::hex_bytes;
use crate::shapes::{Corner, Extent, Part};
use std::alloc::Global;

impl<'a> Fields<'a> {
    // What the next field says.
    pub fn read<T: Field>(&mut self) -> Result<T, Fault>
        ensures said { Takes (λ x. x) (field T.says) self.old self.new result }
        ensures plain { IfErr result (λ fault. fault ≡ Unreadable) }
    {
        let field = self.next().ok_or(Fault::Unreadable)?;
        T::read(field).ok_or(Fault::Unreadable)
    }

    // One word, and no other.
    pub fn word(&mut self, name: &[u8]) -> Result<(), Fault>
        ensures said { Takes (λ x. x) (field (word name.now)) self.old self.new result }
        ensures plain { IfErr result (λ fault. fault ≡ Unreadable) }
    {
        match self.next() {
            Some(field) if name == field => Ok(()),
            _ => Err(Fault::Unreadable),
        }
    }

    // Two numbers of one kind, as `extent` has two of another: one function for both would be no shorter.
    pub fn corner(&mut self) -> Result<Corner, Fault>
        ensures said { Takes (λ x. x) corner self.old self.new result }
        ensures plain { IfErr result (λ fault. fault ≡ Unreadable) }
    {
        let x = self.read()?;
        let y = self.read()?;
        Ok(Corner { x, y })
    }

    pub fn extent(&mut self) -> Result<Extent, Fault>
        ensures said { Takes (λ x. x) extent self.old self.new result }
        ensures plain { IfErr result (λ fault. fault ≡ Unreadable) }
    {
        let width = self.read()?;
        let height = self.read()?;
        Ok(Extent { width, height })
    }

    pub fn part(&mut self) -> Result<Part, Fault>
        ensures said { Takes (λ x. x) part self.old self.new result }
        ensures plain { IfErr result (λ fault. fault ≡ Unreadable) }
    {
        let left = self.read()?;
        let top = self.read()?;
        let size = self.extent()?;
        Ok(Part { left, top, size })
    }

    pub fn bytes(&mut self, heap: Global) -> Result<Vec<u8>, Fault>
        ensures { Takes vec_items (field bytes_of_hex) self.old self.new result }
    {
        hex_bytes(heap, self.next().ok_or(Fault::Unreadable)?)
    }
}
