//! Custom sections, which are skipped (Binary Format, Custom Section).

ghost use Rattle.binary.specs.Conventions.{Gives};
ghost use Rattle.binary.specs.Sections.{after_customs, custom_at, end_at};

use crate::errors::DecodeError;
use crate::reader::Reader;
use crate::values::read_text;

// Skips the rest of a custom section, whose id was read: a name, and any bytes.
#[tactic(auto, unfolding(crate::specs::Sections::custom_at))]
fn skip_custom(reader: &mut Reader<'_>) -> Result<(), DecodeError>
    ensures { Gives result reader.new (custom_at reader.old) }
{
    let mut content = reader.part()?;
    let _name = read_text(&mut content)?;
    Ok(())
}

// Skips any number of custom sections.
pub fn skip_customs(reader: &mut Reader<'_>) -> Result<(), DecodeError>
    ensures { Gives result reader.new (after_customs reader.old) }
{
    while reader.accept(0) {
        skip_custom(reader)?;
    }
    Ok(())
}

// Skips custom sections up to the end of the input. Fails if anything else is left.
#[tactic(auto, unfolding(crate::specs::Sections::end_at))]
pub fn read_ending(reader: &mut Reader<'_>) -> Result<(), DecodeError>
    ensures { Gives result reader.new (end_at reader.old) }
{
    skip_customs(reader)?;
    reader.finish()
}
