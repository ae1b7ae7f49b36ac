// What a line of two keys is answered with.
ghost use Rattle.std.specs.Prelude.{◌≡◌};
ghost use Rattle.key_lines.specs.declared.answer.KeyRefusal.TheVariants.{Name};

use refusals::kinds::NameRefusal;

// Which of two keys goes first.
// The library's `Ordering` has no text of its own: it would need a type around it to be printed as `first` or `second`.
#[derive(Clone, Copy, PartialEq, Eq, Debug)]
pub enum Which {
    First,
    Second,
    Equal,
}

// Why a line has no such answer: a name of it is refused, or it is none of these lines.
#[derive(Clone, Copy, PartialEq, Eq, Debug)]
pub enum KeyRefusal {
    Name(NameRefusal),
    NotALine,
}

impl From<NameRefusal> for KeyRefusal {
    ghost from_gives = { λ below e. e ≡ Name below };

    fn from(below: NameRefusal) -> KeyRefusal {
        KeyRefusal::Name(below)
    }
}
