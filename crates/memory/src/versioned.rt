// The upper interface: a memory with a state for every version.
ghost use Rattle.std.specs.Prelude.{◌≡◌, ℕ, List, length};
ghost use Rattle.order.specs.Items.{items_after};
ghost use Rattle.memory.specs.Memory.{Memory, AllNil};
ghost use Rattle.memory.specs.Steps.{open_of, enter_of, close_of};
ghost use Rattle.memory.specs.Promises.{Does, Foreign, Carries};

use crate::pointer::PointerMemory;
use order::VersionOrder;
use refusals::kinds::MemoryRefusal;

// A versioned memory. Its versions are the items of its order.
pub trait VersionedMemory: PointerMemory {
    // whether the tables in use are within the memory's bound for so many nodes made, link and root writes, and number writes
    ghost spaced: { Self → ℕ → ℕ → ℕ → Type 0 };

    // Makes a new version behind a, as a copy of a's state, and answers its number; it is the draft.
    fn open<O: VersionOrder>(&mut self, order: &mut O, a: u32) -> Result<u32, MemoryRefusal>
        ensures does { Does (λ (p : Self × O). Self.means p.0 (O.items p.1)) (self.old, order.old) (self.new, order.new) result (open_of (O.limit order.old) a) }
        ensures foreign { Foreign {S = Self × O} (Self.accepts self.old (length (O.items order.old))) (self.old, order.old) (self.new, order.new) result }
        ensures items { O.items order.new ≡ items_after result (O.items order.old) a }
        ensures limit { O.limit order.new ≡ O.limit order.old };

    // Moves the working version to v; all registers are nil then.
    fn enter<O: VersionOrder>(&mut self, order: &O, v: u32) -> Result<(), MemoryRefusal>
        ensures does { Does (λ s. Self.means s (O.items order.now)) self.old self.new result (enter_of v) }
        ensures foreign { Foreign (Self.accepts self.old (length (O.items order.now))) self.old self.new result }
        ensures alike { Carries Self.alike self.old self.new };

    // Ends the draft.
    fn close<O: VersionOrder>(&mut self, order: &O) -> Result<(), MemoryRefusal>
        ensures does { Does (λ s. Self.means s (O.items order.now)) self.old self.new result close_of }
        ensures foreign { Foreign (Self.accepts self.old (length (O.items order.now))) self.old self.new result };

    // there are as many versions as items of the order
    ghost counted: { (s : Self) (items : List ℕ) (m : Memory) → Self.means s items m → m.rest.versions ≡ length items };

    // the bound holds of every memory that means something
    ghost bounded: { (s : Self) (items : List ℕ) (m : Memory) → Self.means s items m → spaced s m.made m.linked m.numbered };

    // alike at one working version, all registers nil, is equal
    ghost restored: { (s t : Self) (items : List ℕ) (m n : Memory) → Self.alike s t → Self.means s items m → Self.means t items n → m.rest.working ≡ n.rest.working → AllNil m → AllNil n → s ≡ t };
}
