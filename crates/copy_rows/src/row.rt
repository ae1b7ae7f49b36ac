// A row of the table of copies, and its first values by their fields.
ghost use Rattle.std.specs.Prelude.{◌≡◌};
ghost use Rattle.fields.specs.Fields.{field_number};
ghost use Rattle.copy_rows.specs.Rows.{Renewed, first_of};

use fields::kinds::{Field, Value};

// A copy without its entries: the serial number of its node, the key place, the first version, the values there of the two links, the
// two back links, the value and the mark, and the copy of its node that begins next, by its number: the rows lie in a table that is given at the
// making, and no call allocates.
#[derive(Clone, Copy)]
pub struct CopyRow {
    pub serial: u32,
    pub key: u32,
    pub lo: u32,
    pub left: Value,
    pub right: Value,
    pub back: Value,
    pub other: Value,
    pub value: Value,
    pub mark: Value,
    pub next: Option<u32>,
}

impl CopyRow {
    // The first value of a field.
    pub fn first(self, field: Field) -> Value
        ensures { result ≡ first_of self (field_number field) }
    {
        match field {
            Field::Left => self.left,
            Field::Right => self.right,
            Field::Third => Value::Nil,
            Field::FirstBack => self.back,
            Field::SecondBack => self.other,
            Field::Number(0) => self.value,
            Field::Number(1) => self.mark,
            Field::Number(_) => Value::Number(0),
        }
    }

    // The row with another first value of a field.
    pub fn with_first(self, field: Field, w: Value) -> CopyRow
        ensures { Renewed self (field_number field) w result }
    {
        match field {
            Field::Left => CopyRow { left: w, ..self },
            Field::Right => CopyRow { right: w, ..self },
            Field::FirstBack => CopyRow { back: w, ..self },
            Field::SecondBack => CopyRow { other: w, ..self },
            Field::Number(0) => CopyRow { value: w, ..self },
            Field::Number(1) => CopyRow { mark: w, ..self },
            Field::Third | Field::Number(_) => self,
        }
    }
}
