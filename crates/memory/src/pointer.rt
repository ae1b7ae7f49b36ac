// The lower interface: what tree and queue code needs of a memory.
ghost use Rattle.std.specs.Prelude.{◌≡◌, ℕ, ◌-◌, Bool, true, List, length};
ghost use Rattle.memory.specs.Memory.{Memory, changed};
ghost use Rattle.memory.specs.Steps.{load_of, follow_of, move_of, key_of, number_of, nil_of, same_of, make_of, save_of, link_of, set_number_of};
ghost use Rattle.memory.specs.Promises.{Does, Tells, Foreign, Carries};

use order::VersionOrder;
use refusals::kinds::MemoryRefusal;

// A pointer memory. A call takes the version order that the memory was made with. It answers and steps as the abstract memory does,
// and a refused call leaves the memory equal to what it was. By a rule of the project, registers, roots and links are numbers, since any
// number is answered, with 21 where it is out of range; and key, value and mark have calls and widths of their own. What a call does and what
// it answers to a foreign order are two clauses and no record of both, so that a proof cites each by its name.
pub trait PointerMemory {
    // what a memory means, together with the items of its order
    ghost means: { Self → List ℕ → Memory → Type 0 };

    // whether an order of so many items may be the memory's own; with any other a call is refused with 20
    ghost accepts: { Self → ℕ → Bool };

    // two memories that differ at most in their registers and working version
    ghost alike: { Self → Self → Type 0 };

    // Puts a root into a register.
    fn load<O: VersionOrder>(
        &mut self,
        order: &O,
        root: usize,
        reg: usize,
    ) -> Result<(), MemoryRefusal>
        ensures does { Does (λ s. means s (O.items order.now)) self.old self.new result (load_of root reg) }
        ensures foreign { Foreign (accepts self.old (length (O.items order.now))) self.old self.new result }
        ensures alike { Carries alike self.old self.new };

    // Puts a link of a register's node into a register.
    fn follow<O: VersionOrder>(
        &mut self,
        order: &O,
        from: usize,
        side: usize,
        reg: usize,
    ) -> Result<(), MemoryRefusal>
        ensures does { Does (λ s. means s (O.items order.now)) self.old self.new result (follow_of from side reg) }
        ensures foreign { Foreign (accepts self.old (length (O.items order.now))) self.old self.new result }
        ensures alike { Carries alike self.old self.new };

    // Copies a register.
    fn copy<O: VersionOrder>(
        &mut self,
        order: &O,
        from: usize,
        reg: usize,
    ) -> Result<(), MemoryRefusal>
        ensures does { Does (λ s. means s (O.items order.now)) self.old self.new result (move_of from reg) }
        ensures foreign { Foreign (accepts self.old (length (O.items order.now))) self.old self.new result }
        ensures alike { Carries alike self.old self.new };

    // The key place of a register's node.
    fn key<O: VersionOrder>(&self, order: &O, reg: usize) -> Result<u32, MemoryRefusal>
        ensures does { Tells (λ s. means s (O.items order.now)) self.now result (key_of reg) }
        ensures foreign { Foreign (accepts self.now (length (O.items order.now))) self.now self.now result };

    // Its value.
    fn value<O: VersionOrder>(&self, order: &O, reg: usize) -> Result<u64, MemoryRefusal>
        ensures does { Tells (λ s. means s (O.items order.now)) self.now result (number_of 0 reg) }
        ensures foreign { Foreign (accepts self.now (length (O.items order.now))) self.now self.now result };

    // Its mark.
    fn mark<O: VersionOrder>(&self, order: &O, reg: usize) -> Result<u32, MemoryRefusal>
        ensures does { Tells (λ s. means s (O.items order.now)) self.now result (number_of 1 reg) }
        ensures foreign { Foreign (accepts self.now (length (O.items order.now))) self.now self.now result };

    // Whether a register is nil.
    fn is_nil<O: VersionOrder>(&self, order: &O, reg: usize) -> Result<bool, MemoryRefusal>
        ensures does { Tells (λ s. means s (O.items order.now)) self.now result (nil_of reg) }
        ensures foreign { Foreign (accepts self.now (length (O.items order.now))) self.now self.now result };

    // Whether two registers hold the same.
    fn same<O: VersionOrder>(&self, order: &O, a: usize, b: usize) -> Result<bool, MemoryRefusal>
        ensures does { Tells (λ s. means s (O.items order.now)) self.now result (same_of a b) }
        ensures foreign { Foreign (accepts self.now (length (O.items order.now))) self.now self.now result };

    // Puts a new node, both links nil, into a register.
    fn make<O: VersionOrder>(
        &mut self,
        order: &O,
        reg: usize,
        key: u32,
        value: u64,
        mark: u32,
    ) -> Result<(), MemoryRefusal>
        ensures does { Does (λ s. means s (O.items order.now)) self.old self.new result (make_of reg key value mark) }
        ensures foreign { Foreign (accepts self.old (length (O.items order.now))) self.old self.new result };

    // Writes a root from a register.
    fn save<O: VersionOrder>(
        &mut self,
        order: &O,
        root: usize,
        reg: usize,
    ) -> Result<(), MemoryRefusal>
        ensures does { Does (λ s. means s (O.items order.now)) self.old self.new result (save_of root reg) }
        ensures foreign { Foreign (accepts self.old (length (O.items order.now))) self.old self.new result };

    // Writes a link of a register's node from a register.
    fn link<O: VersionOrder>(
        &mut self,
        order: &O,
        from: usize,
        side: usize,
        reg: usize,
    ) -> Result<(), MemoryRefusal>
        ensures does { Does (λ s. means s (O.items order.now)) self.old self.new result (link_of from side reg) }
        ensures foreign { Foreign (accepts self.old (length (O.items order.now))) self.old self.new result };

    // Writes the value of a register's node.
    fn set_value<O: VersionOrder>(
        &mut self,
        order: &O,
        reg: usize,
        value: u64,
    ) -> Result<(), MemoryRefusal>
        ensures does { Does (λ s. means s (O.items order.now)) self.old self.new result (set_number_of 0 reg value) }
        ensures foreign { Foreign (accepts self.old (length (O.items order.now))) self.old self.new result };

    // Writes its mark.
    fn set_mark<O: VersionOrder>(
        &mut self,
        order: &O,
        reg: usize,
        mark: u32,
    ) -> Result<(), MemoryRefusal>
        ensures does { Does (λ s. means s (O.items order.now)) self.old self.new result (set_number_of 1 reg mark) }
        ensures foreign { Foreign (accepts self.old (length (O.items order.now))) self.old self.new result };

    // How many nodes can still be made.
    fn nodes_left(&self) -> u32
        ensures { (items : List ℕ) (m : Memory) → means self.now items m → result ≡ m.node_limit - m.made };

    // How many changes can still be accepted.
    fn changes_left(&self) -> u32
        ensures { (items : List ℕ) (m : Memory) → means self.now items m → result ≡ m.change_limit - changed m };

    // a memory accepts the order that it means something with
    ghost fits: { (s : Self) (items : List ℕ) (m : Memory) → means s items m → accepts s (length items) ≡ true };

    // a memory is alike to itself
    ghost likeness: { (s : Self) → alike s s };
}
