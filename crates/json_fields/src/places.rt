//! Where the values of a file stand.

ghost use Rattle.std.specs.Prelude.{◌≡◌, IfOk};
ghost use Rattle.json_fields.specs.Places.{whole_file, element, part_of, item_of, spot_of, path_to};
ghost use Rattle.json_fields.specs.Places.{leading};

use crate::Spot;
use itoa::Buffer;
use no_memory::NoMemory;
use rail_types::Name;
use std::alloc::Global;
use std::marker::Model;

/// Where a value of a file stands: the file itself, an element of a list, or a part of an element.
#[derive(Drop)]
pub struct Place<'a> {
    list: &'a str,
    index: Option<u32>,
    within: &'a str,
    item: Option<u32>,
}

impl<'a> Model for Place<'a> {
    ghost use Rattle.json_fields.specs.Places.{FilePlace};

    ghost Value = { FilePlace };

    ghost view = { λ a. record {
      list = a.list.now;
      index = a.index;
      within = a.within.now;
      item = a.item;
    } };
}

impl<'a> Place<'a> {
    /// The whole file.
    pub fn of_file() -> Place<'a>
        ensures { result ≡ whole_file }
    {
        Place {
            list: "",
            index: None,
            within: "",
            item: None,
        }
    }

    /// An element of a list of the file.
    pub fn of_element(list: &'a str, index: u32) -> Place<'a>
        ensures { result ≡ element list.now index }
    {
        Place {
            list,
            index: Some(index),
            within: "",
            item: None,
        }
    }

    /// A part of this element, by the names of the fields that lead to it, with dots between.
    pub fn part(&self, within: &'a str) -> Place<'a>
        ensures { result ≡ part_of self.now within.now }
    {
        Place {
            list: self.list,
            index: self.index,
            within,
            item: None,
        }
    }

    /// An item of a list in this element, by the name of the field that has the list.
    pub fn item(&self, within: &'a str, item: u32) -> Place<'a>
        ensures { result ≡ item_of self.now within.now item }
    {
        Place {
            list: self.list,
            index: self.index,
            within,
            item: Some(item),
        }
    }

    /// The spot of a field of the object that stands here, or its own
    /// spot where the field is empty.
    pub fn spot(&self, alloc: Global, field: &str) -> Result<Spot, NoMemory>
        ensures { IfOk result (λ spot. spot ≡ spot_of self.now field.now) }
    {
        let spot = self.spot_of_bytes(alloc, field.as_bytes())?;
        Ok(spot)
    }

    /// The same of a field whose name is given by its bytes.
    pub fn spot_of_bytes(&self, alloc: Global, field: &[u8]) -> Result<Spot, NoMemory>
        ensures { IfOk result (λ spot. spot ≡ spot_of self.now field.now) }
    {
        let Some(index) = self.index else {
            return Ok(Spot {
                list: Name::from_bytes(alloc, field)?,
                index: None,
                field: Name::from_bytes(alloc, b"")?,
            });
        };
        let path = path(alloc, self.within, self.item, field)?;
        Ok(Spot {
            list: Name::from_bytes(alloc, self.list.as_bytes())?,
            index: Some(index),
            field: Name::from_bytes(alloc, path.as_slice())?,
        })
    }
}

/// The fields that lead to a field.
fn path(alloc: Global, within: &str, item: Option<u32>, field: &[u8]) -> Result<Vec<u8>, NoMemory>
    ensures { IfOk result (λ path. path.items ≡ path_to within.now item field.now) }
{
    let mut path = leading(alloc, within, item)?;
    if !path.is_empty() && !field.is_empty() {
        path.push(b'.')?;
    }
    path.extend_from_slice(field)?;
    Ok(path)
}

fn leading(alloc: Global, within: &str, item: Option<u32>) -> Result<Vec<u8>, NoMemory>
    ensures { IfOk result (λ text. text.items ≡ leading within.now item) }
{
    let mut text = Vec::from_slice(alloc, within.as_bytes())?;
    let Some(item) = item else {
        return Ok(text);
    };
    let mut digits = Buffer::new();
    text.push(b'[')?;
    text.extend_from_slice(digits.format(item).as_bytes())?;
    text.push(b']')?;
    Ok(text)
}
