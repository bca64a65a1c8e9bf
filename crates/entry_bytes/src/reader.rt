// Bytes that are read from left to right, a field at a time.
ghost use Rattle.std.specs.Prelude.{◌≡◌, ◌+◌, ◌==◌, length, IfOk, Ok, Err, if◌then◌else◌};
ghost use Rattle.std.specs.Int.{w16, w32, w64};
ghost use Rattle.entry_bytes.specs.Gives.{FailsReading, GivesAs, GivesReading};
ghost use Rattle.entry_bytes.specs.Readings.{byte, field_bytes, name, number, text};

use crate::faults::ReadFault;
use apron_base::Name;
use std::marker::Model;

// The bytes that are left, and the place of the first of them. It is not used again after a fault.
#[derive(Drop)]
pub(crate) struct Reader<'a> {
    at: usize,
    bytes: &'a [u8],
}

impl<'a> Model for Reader<'a> {
    ghost use Rattle.std.specs.Prelude.{◌+◌, ◌<◌, ◌^◌, length};
    ghost use Rattle.entry_bytes.specs.Readings.{RestOfEntry};

    ghost Value = { RestOfEntry };

    ghost view = { λ r. record { at = r.at; bytes = r.bytes.now } };

    ghost invariant = { λ r. r.at + length r.bytes.now < 2 ^ 64 };
}

impl<'a> Reader<'a> {
    pub fn new(bytes: &'a [u8]) -> Reader<'a>
        ensures is { result ≡ record { at = 0; bytes = bytes.now } }
    {
        Reader { at: 0, bytes }
    }

    // The place of the first byte that is left.
    pub fn at(&self) -> usize
        ensures is { result ≡ self.now.at }
    {
        self.at
    }

    pub fn is_empty(&self) -> bool
        ensures is { result ≡ (length self.now.bytes == 0) }
    {
        self.bytes.is_empty()
    }

    // This many bytes of the field that begins at this place.
    #[tactic(auto, unfolding(crate::specs::Readings::field_bytes))]
    fn bytes_of(&mut self, at: usize, count: usize) -> Result<&'a [u8], ReadFault>
        ensures is { GivesAs (λ bytes. bytes.now) result self.new (field_bytes at count self.old) }
        ensures count { IfOk result (λ bytes. length bytes.now ≡ count) }
    {
        if self.bytes.len() < count {
            return Err(ReadFault::BadField(at));
        }
        let (front, rest) = self.bytes.split_at(count);
        self.at += count;
        self.bytes = rest;
        Ok(front)
    }

    #[tactic(auto, unfolding(crate::specs::Readings::byte))]
    pub fn byte(&mut self) -> Result<u8, ReadFault>
        ensures is { GivesReading result self.new (byte self.old) }
    {
        match self.bytes {
            [] => Err(ReadFault::BadField(self.at)),
            [first, rest @ ..] => {
                self.at += 1;
                self.bytes = rest;
                Ok(*first)
            }
        }
    }

    #[tactic(auto, unfolding(crate::specs::Readings::number))]
    pub fn u16(&mut self) -> Result<u16, ReadFault>
        ensures is { GivesReading result self.new (number w16 self.old) }
    {
        let bytes = self.bytes_of(self.at, 2)?;
        Ok(u16::from_le_bytes([bytes[0], bytes[1]]))
    }

    #[tactic(auto, unfolding(crate::specs::Readings::number))]
    pub fn u32(&mut self) -> Result<u32, ReadFault>
        ensures is { GivesReading result self.new (number w32 self.old) }
    {
        let bytes = self.bytes_of(self.at, 4)?;
        Ok(u32::from_le_bytes([bytes[0], bytes[1], bytes[2], bytes[3]]))
    }

    #[tactic(auto, unfolding(crate::specs::Readings::number))]
    pub fn u64(&mut self) -> Result<u64, ReadFault>
        ensures is { GivesReading result self.new (number w64 self.old) }
    {
        let bytes = self.bytes_of(self.at, 8)?;
        Ok(u64::from_le_bytes([
            bytes[0], bytes[1], bytes[2], bytes[3], bytes[4], bytes[5], bytes[6], bytes[7],
        ]))
    }

    // A byte that says how many bytes the text has, and these bytes.
    #[tactic(auto, unfolding(crate::specs::Readings::text))]
    pub fn text(&mut self) -> Result<&'a [u8], ReadFault>
        ensures is { GivesAs (λ bytes. bytes.now) result self.new (text self.old) }
    {
        let at = self.at;
        let count = self.byte()?;
        self.bytes_of(at, usize::from(count))
    }

    pub fn name(&mut self) -> Result<Name, ReadFault>
        ensures is { GivesReading result self.new (name self.old) }
    {
        let at = self.at;
        let text = self.text()?;
        match Name::new(text) {
            Some(name) => Ok(name),
            None => Err(ReadFault::BadField(at)),
        }
    }
}

// The field that begins at this place has its form if the test is true.
pub(crate) fn in_form(at: usize, test: bool) -> Result<(), ReadFault>
    ensures is { result ≡ if test then Ok tt else Err (ReadFault.BadField at) }
{
    if test {
        Ok(())
    } else {
        Err(ReadFault::BadField(at))
    }
}
