// Orders of both kinds, made in memory of the program's own.
use grouping::item::Seat;
use labels::Labelled;
use linked_lists::row::Row;
use order::VersionOrder;
use refusals::kinds::MakerRefusal;
use relabelled::list::RelabelledList;
use std::alloc::{AllocError, Global};
use two_level::list::TwoLevelList;

// The kinds of version orders.
#[derive(Clone, Copy)]
pub enum OrderKind {
    Relabelled,
    TwoLevel,
}

impl OrderKind {
    // The kind that a word names. No `TryFrom`: a word that names none is no error of its own, only no command.
    pub(crate) fn named(word: &str) -> Option<OrderKind> {
        match word {
            "relabelled" => Some(OrderKind::Relabelled),
            "two-level" => Some(OrderKind::TwoLevel),
            _ => None,
        }
    }
}

// An order that the program can make: of item 0 alone, for at most `limit` items, in tables that it asks for.
pub(crate) trait MadeOrder: VersionOrder + Labelled + Drop {
    fn made(heap: Global, limit: u32) -> Result<Result<Self, MakerRefusal>, AllocError>
    where
        Self: Sized;
}

// As many rows as an order of that limit needs, each with the tag and without neighbours; no order has more than 4,096 items.
fn table<T: Copy>(heap: Global, limit: u32, tag: T) -> Result<Vec<Row<T>>, AllocError> {
    let blank = Row {
        tag,
        next: None,
        prev: None,
    };
    Ok(vec![in heap; blank; limit.min(4096) as usize]?)
}

impl MadeOrder for RelabelledList {
    fn made(heap: Global, limit: u32) -> Result<Result<Self, MakerRefusal>, AllocError> {
        let rows = table(heap, limit, 0)?;
        Ok(RelabelledList::make(limit, rows).map_err(|(refusal, _)| refusal))
    }
}

impl MadeOrder for TwoLevelList {
    fn made(heap: Global, limit: u32) -> Result<Result<Self, MakerRefusal>, AllocError> {
        let items = table(heap, limit, Seat { group: 0, rank: 0 })?;
        let groups = table(heap, limit, 0)?;
        Ok(TwoLevelList::make(limit, items, groups).map_err(|(refusal, _, _)| refusal))
    }
}
