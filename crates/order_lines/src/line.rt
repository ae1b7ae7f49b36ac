// What a line asks of an order, and what the order answers.

// A question or a call, with the numbers of the items that it names.
#[derive(Clone, Copy)]
pub enum OrderLine {
    After(u32),
    Before(u32, u32),
    Successor(u32),
    Count,
    Label(u32),
}

// What an order answers to a line.
#[derive(Clone, Copy)]
pub enum OrderAnswer {
    NewItem(u32),
    IsBefore(bool),
    Next(Option<u32>),
    Total(u32),
    LabelIs(u32),
}
