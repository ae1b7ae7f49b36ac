// The refusals of each layer. Every layer has an enum of its own, so that a call's type says which refusals it can give.

// Why a maker refuses: a limit or a table does not fit.
#[derive(Clone, Copy, PartialEq, Eq, Debug)]
pub enum MakerRefusal {
    LimitOutOfRange,
    TableTooShort,
}

// Why the store refuses a call.
#[derive(Clone, Copy, PartialEq, Eq, Debug)]
pub enum StoreRefusal {
    NoDraft,
    DraftOpen,
    UnknownVersion,
    VersionIsDraft,
    VersionsSpent,
    ForeignPart,
    ChangesShort,
    KeyAbsent,
    DueEmpty,
    NodesSpent,
    BookFull,
    NameLength,
    TooManyPrints,
}

// Why a key book refuses a key: all its places are taken.
#[derive(Clone, Copy, PartialEq, Eq, Debug)]
pub enum BookRefusal {
    Full,
}

// Why bytes are refused as a name: there are none, or more than 16.
#[derive(Clone, Copy, PartialEq, Eq, Debug)]
pub enum NameRefusal {
    Length,
}

// Why a version order refuses a call.
#[derive(Clone, Copy, PartialEq, Eq, Debug)]
pub enum OrderRefusal {
    UnknownItem,
    Full,
}

// Why a memory refuses a call; what its order refuses, it passes on whole.
#[derive(Clone, Copy, PartialEq, Eq, Debug)]
pub enum MemoryRefusal {
    ForeignOrder,
    OutOfRange,
    NilRegister,
    OutsideDraft,
    ChangesSpent,
    NodesSpent,
    ThirdName,
    DraftOpen,
    NoDraft,
    Order(OrderRefusal),
}
