//! Objects in rows, as those of each track.

ghost use Rattle.std.specs.Prelude.{◌≡◌, ◌<◌, ◌∷◌, ◌++◌, [], length, slice_set, OnOk, IfOk};
ghost use Rattle.std.specs.List.{All, filter};
ghost use Rattle.signal_blocks.specs.Rows.{is_in, row_of, AreRows};

use no_memory::NoMemory;
use rail_types::List;
use std::alloc::Global;
use std::marker::Model;
use std::snapshot::Snapshot;

/// What belongs to a row, as to that of its track or its zone.
pub trait InRow {
    ghost use Rattle.std.specs.Prelude.{◌≡◌, ℕ};

    ghost row_number: { Self → ℕ };

    /// The number of the row.
    fn row_number(&self) -> u32
        ensures { result ≡ row_number self.now };
}

/// Objects in their order, found by their rows. Contracts see the list of objects.
#[derive(Drop)]
pub struct ByRow<T: InRow> {
    all: Snapshot<List<T>>,
    rows: Vec<List<T>>,
}

impl<T: InRow> Model for ByRow<T> {
    ghost use Rattle.std.specs.Prelude.{List as list_of};
    ghost use Rattle.signal_blocks.specs.Rows.{AreRows};

    ghost Value = { list_of T };

    ghost view = { λ a. a.all.value };

    ghost invariant = { λ a. AreRows T.row_number a.all.value a.rows.items };
}

impl<T: InRow + Copy> ByRow<T> {
    /// These objects, in so many rows.
    pub fn of(alloc: Global, count: u32, all: &List<T>) -> Result<ByRow<T>, NoMemory>
        requires { All (λ item. T.row_number item < count) all.now }
        ensures { IfOk result (λ rows. rows ≡ all.now) }
    {
        let mut rows = no_rows(alloc, count)?;
        fill_rows(&mut rows, all.as_slice())?;
        Ok(ByRow {
            all: Snapshot::of(all),
            rows,
        })
    }

    /// Those in the row of that number, in their order.
    pub fn in_row(&self, number: u32) -> &[T]
        ensures { result.now ≡ filter (is_in T.row_number number) self.now }
    {
        match self.rows.get(number as usize) {
            Some(row) => row.as_slice(),
            None => &[],
        }
    }
}

fn no_rows<T: InRow + Copy>(alloc: Global, count: u32) -> Result<Vec<List<T>>, NoMemory>
    ensures long { IfOk result (λ rows. length rows.items ≡ count) }
    ensures rows { IfOk result (λ rows. AreRows T.row_number [] rows.items) }
{
    let mut rows = Vec::new(alloc);
    'rows: for _ in 0..count {
        rows.push(List::new(alloc))?;
    }
    Ok(rows)
}

/// Puts each object behind the others of its row.
fn fill_rows<T: InRow + Copy>(rows: &mut [List<T>], all: &[T]) -> Result<(), NoMemory>
    requires within { All (λ item. T.row_number item < length rows.old) all.now }
    requires none { AreRows T.row_number [] rows.old }
    ensures ok { OnOk result (AreRows T.row_number all.now rows.new) }
{
    'fills: for item in all {
        add_item(rows, item)?;
    }
    Ok(())
}

fn add_item<T: InRow + Copy>(rows: &mut [List<T>], item: &T) -> Result<(), NoMemory>
    requires { T.row_number item.now < length rows.old }
    ensures ok { OnOk result (rows.new
        ≡ slice_set rows.old (T.row_number item.now)
        (row_of rows.old (T.row_number item.now) ++ item.now ∷ [])) }
{
    let row = &mut rows[item.row_number() as usize];
    row.push(*item)?;
    Ok(())
}
