//! Places in a file, as a fault tells them.

ghost use Rattle.std.specs.Prelude.{◌≡◌, ◌++◌, OnOk};
ghost use Rattle.json_fields.specs.Spots.{spot_text, index_text, field_text};

use itoa::Buffer;
use no_memory::NoMemory;
use rail_types::Name;

/// A place in a file, written `list[index].field`. What stands alone, a field of the
/// whole file or the file itself, is the list, without index and field; an element
/// without a field has an empty one.
#[derive(Debug, Drop)]
pub struct Spot {
    pub list: Name,
    pub index: Option<u32>,
    pub field: Name,
}

impl Spot {
    /// Appends the text of the place.
    pub fn push_text(&self, to: &mut Vec<u8>) -> Result<(), NoMemory>
        ensures { OnOk result (to.new.items ≡ to.old.items ++ spot_text self.now) }
    {
        to.extend_from_slice(self.list.as_bytes())?;
        push_index(to, self.index)?;
        push_field(to, self.field.as_bytes())?;
        Ok(())
    }
}

fn push_index(to: &mut Vec<u8>, index: Option<u32>) -> Result<(), NoMemory>
    ensures { OnOk result (to.new.items ≡ to.old.items ++ index_text index) }
{
    let Some(index) = index else {
        return Ok(());
    };
    let mut digits = Buffer::new();
    to.push(b'[')?;
    to.extend_from_slice(digits.format(index).as_bytes())?;
    to.push(b']')?;
    Ok(())
}

fn push_field(to: &mut Vec<u8>, field: &[u8]) -> Result<(), NoMemory>
    ensures { OnOk result (to.new.items ≡ to.old.items ++ field_text field.now) }
{
    if field.is_empty() {
        return Ok(());
    }
    to.push(b'.')?;
    to.extend_from_slice(field)?;
    Ok(())
}
