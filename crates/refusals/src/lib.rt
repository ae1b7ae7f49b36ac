// Why a call is refused, one enum for each layer, and the number by which each refusal is known outside.
#![tactic(auto)]

ghost use Rattle.std.specs.Prelude.{◌≡◌, ℕ};
ghost use Rattle.refusals.specs.Numbers.{maker_number, store_number, book_number, name_number, memory_number, order_number};

pub mod kinds;
pub mod shown;

use kinds::{BookRefusal, MakerRefusal, MemoryRefusal, NameRefusal, OrderRefusal, StoreRefusal};

// A refusal, known outside by its number.
// As discriminants of the variants the numbers would have no place for `Order(below)`, whose number is the order's own;
// and one way for all six is plainer than two.
pub trait Refusal: Copy {
    ghost numbered: { Self → ℕ };

    // The number of this refusal.
    fn number(self) -> u32
        ensures { result ≡ numbered self };
}

impl Refusal for MakerRefusal {
    ghost numbered = { maker_number };

    fn number(self) -> u32 {
        match self {
            MakerRefusal::LimitOutOfRange => 1,
            MakerRefusal::TableTooShort => 2,
        }
    }
}

impl Refusal for StoreRefusal {
    ghost numbered = { store_number };

    fn number(self) -> u32 {
        match self {
            StoreRefusal::NoDraft => 3,
            StoreRefusal::DraftOpen => 4,
            StoreRefusal::UnknownVersion => 5,
            StoreRefusal::VersionIsDraft => 6,
            StoreRefusal::VersionsSpent => 7,
            StoreRefusal::ForeignPart => 8,
            StoreRefusal::ChangesShort => 9,
            StoreRefusal::KeyAbsent => 10,
            StoreRefusal::DueEmpty => 11,
            StoreRefusal::NodesSpent => 12,
            StoreRefusal::BookFull => 13,
            StoreRefusal::NameLength => 14,
            StoreRefusal::TooManyPrints => 15,
        }
    }
}

impl Refusal for BookRefusal {
    ghost numbered = { book_number };

    fn number(self) -> u32 {
        match self {
            BookRefusal::Full => 13,
        }
    }
}

impl Refusal for NameRefusal {
    ghost numbered = { name_number };

    fn number(self) -> u32 {
        match self {
            NameRefusal::Length => 14,
        }
    }
}

impl Refusal for OrderRefusal {
    ghost numbered = { order_number };

    fn number(self) -> u32 {
        match self {
            OrderRefusal::UnknownItem => 31,
            OrderRefusal::Full => 32,
        }
    }
}

impl Refusal for MemoryRefusal {
    ghost numbered = { memory_number };

    fn number(self) -> u32 {
        match self {
            MemoryRefusal::ForeignOrder => 20,
            MemoryRefusal::OutOfRange => 21,
            MemoryRefusal::NilRegister => 22,
            MemoryRefusal::OutsideDraft => 23,
            MemoryRefusal::ChangesSpent => 24,
            MemoryRefusal::NodesSpent => 25,
            MemoryRefusal::ThirdName => 26,
            MemoryRefusal::DraftOpen => 27,
            MemoryRefusal::NoDraft => 28,
            MemoryRefusal::Order(below) => below.number(),
        }
    }
}
