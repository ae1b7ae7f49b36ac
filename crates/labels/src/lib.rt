// The labels of a relabelled list: how many items a range of labels may hold, which label each item has, and the laws of both.
#![tactic(auto)]

ghost use Rattle.std.specs.Prelude.{◌≡◌, ℕ, Result};
ghost use Rattle.refusals.specs.declared.kinds.OrderRefusal.{OrderRefusal};
ghost use Rattle.labels.specs.Capacity.{room_of};
ghost use Rattle.labels.specs.Laws.{AlwaysRoom, SmallestRange, LabelsRise};

use refusals::kinds::OrderRefusal;

// An order that can be asked for labels.
pub trait Labelled {
    // what it answers for an item: the label, or a refusal
    ghost labels: { Self → ℕ → Result ℕ OrderRefusal };

    // The label of a, or of the part of the order that a lies in.
    fn label(&self, a: u32) -> Result<u32, OrderRefusal>
        ensures { result ≡ labels self.now a };
}

// The capacity of an aligned range of 2^i labels, for each i below 32.
const CAPACITY: [u64; 32] = [
    1, 1, 1, 2, 3, 4, 5, 7, 9, 13, 17, 23, 31, 42, 56, 74, 99, 133, 177, 236, 315, 420, 560, 747,
    996, 1328, 1771, 2362, 3149, 4199, 5599, 7466,
];

// How many items an aligned range of 2^i labels may hold; 0 beyond the table.
pub fn room(i: u32) -> u64
    ensures { result ≡ room_of i }
{
    CAPACITY.get(i as usize).copied().unwrap_or(0)
}

// The laws of the labels hold: a range with room always exists, the one taken is the smallest, and labels rise.
pub fn label_laws_hold() -> u8
    ensures room { AlwaysRoom }
    ensures smallest { SmallestRange }
    ensures rising { LabelsRise }
{
    0
}
