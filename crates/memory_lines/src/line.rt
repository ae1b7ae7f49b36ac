// What a line calls, and what the memory answers.

// Calls that move registers.
#[derive(Clone, Copy)]
pub enum Move {
    Load(u32, u32),
    Follow(u32, u32, u32),
    Copy(u32, u32),
}

// Calls that only answer.
#[derive(Clone, Copy)]
pub enum Question {
    Key(u32),
    Value(u32),
    Mark(u32),
    Nil(u32),
    Same(u32, u32),
}

// Calls that make a node or write.
#[derive(Clone, Copy)]
pub enum Write {
    Make(u32, u32, u64, u32),
    Save(u32, u32),
    Link(u32, u32, u32),
    SetValue(u32, u64),
    SetMark(u32, u32),
}

// A call of a pointer memory.
#[derive(Clone, Copy)]
pub enum PointerLine {
    Moves(Move),
    Asks(Question),
    Writes(Write),
}

// A further call of a versioned memory.
#[derive(Clone, Copy)]
pub enum VersionLine {
    Open(u32),
    Enter(u32),
    Close,
}

// Any call.
#[derive(Clone, Copy)]
pub enum MemoryLine {
    Pointer(PointerLine),
    Version(VersionLine),
}

// What an accepted call answers.
#[derive(Clone, Copy)]
pub enum Reply {
    Done,
    Number(u64),
    Truth(bool),
    NewVersion(u32),
}
