// The fields of a copy, and what each holds.
ghost use Rattle.std.specs.Prelude.{◌≡◌};

// A field of a copy: a left and a right link, the root record's third link, two back links, and numbers, the value and the mark first.
#[derive(Clone, Copy, PartialEq, Eq, Debug)]
pub enum Field {
    Left,
    Right,
    Third,
    FirstBack,
    SecondBack,
    Number(u8),
}

impl From<u8> for Field {
    ghost use Rattle.fields.specs.Fields.{field_number};

    ghost from_gives = { λ n f. field_number f ≡ n };

    // The field of a number.
    fn from(n: u8) -> Field {
        match n {
            0 => Field::Left,
            1 => Field::Right,
            2 => Field::Third,
            3 => Field::FirstBack,
            4 => Field::SecondBack,
            _ => Field::Number(n - 5),
        }
    }
}

// A number field holds a number. A link holds nothing or the copy that it names. A back link holds nothing or the copy and the
// link, or the root, from which it is named. The link stands there as its number: back links are only compared, and as a `Field` it would be
// turned back into its number wherever they are.
#[derive(Clone, Copy, PartialEq, Eq, Debug)]
pub enum Value {
    Number(u64),
    Nil,
    To(u32),
    From(u32, u32),
}

// A copy that is to be named in place of another.
#[derive(Clone, Copy, PartialEq, Eq, Debug)]
pub struct Renaming {
    pub old: u32,
    pub new: u32,
}

impl Value {
    ghost use Rattle.fields.specs.Fields.{names_one, redirect};

    // Whether the value names the copy c.
    pub fn names(self, c: u32) -> bool
        ensures { result ≡ names_one c self }
    {
        matches!(self, Value::To(k) | Value::From(k, _) if k == c)
    }

    // The value, with the one copy named in place of the other.
    pub fn redirected(self, names: Renaming) -> Value
        ensures { result ≡ redirect names.old names.new self }
    {
        match self {
            Value::To(k) if k == names.old => Value::To(names.new),
            Value::From(k, l) if k == names.old => Value::From(names.new, l),
            _ => self,
        }
    }
}
