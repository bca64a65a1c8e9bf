// Messages as bytes: their canonical texts.
ghost use Rattle.std.specs.Prelude.{◌≡◌, ◌++◌, IfOk, OnOk};
ghost use Rattle.mvt_grammar.specs.Readable.{IsReadable};
ghost use Rattle.entry_bytes.specs.Gives.{GivesReading};
ghost use Rattle.entry_bytes.specs.Fields.{text_field, field_bytes};
ghost use Rattle.entry_bytes.specs.Parsing.{canonical_message, parse_message};
ghost use Rattle.mvt_grammar.specs.Canonical.{canonical};

use crate::faults::ReadFault;
use crate::reader::Reader;
use apron_base::Memory;
use mvt_grammar::{Mvt, read_mvt, write_mvt};
use std::alloc::Global;

pub(crate) fn push_message(alloc: Global, out: &mut Vec<u8>, message: &Mvt) -> Result<(), Memory>
    requires readable { IsReadable message.now }
    ensures text { OnOk result
        (out.new.items ≡ out.old.items ++ field_bytes (text_field (canonical message.now))) }
{
    let text = write_mvt(alloc, message)?;
    out.push(text.len() as u8)?;
    out.extend_from_slice(text.as_slice())?;
    Ok(())
}

#[tactic(auto, unfolding(crate::specs::Parsing::parse_message))]
pub(crate) fn parse_message(alloc: Global, reader: &mut Reader<'_>) -> Result<Mvt, ReadFault>
    ensures is { GivesReading result reader.new (parse_message reader.old) }
{
    let at = reader.at();
    let text = reader.text()?;
    match message_of(alloc, text)? {
        Some(message) => Ok(message),
        None => Err(ReadFault::BadField(at)),
    }
}

// The message that the text is read as, if the text is its canonical one.
fn message_of(alloc: Global, text: &[u8]) -> Result<Option<Mvt>, Memory>
    ensures is { IfOk result (λ message. message ≡ canonical_message text.now) }
{
    match read_mvt(text) {
        Ok(message) => {
            let canonical = write_mvt(alloc, &message)?;
            if text == canonical.as_slice() {
                Ok(Some(message))
            } else {
                Ok(None)
            }
        }
        Err(_) => Ok(None),
    }
}
