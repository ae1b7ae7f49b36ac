// A linked list of two values in a single-version memory: the answers are promised, and the program prints them.
#![tactic(auto)]

ghost use Rattle.std.specs.Prelude.{◌≡◌, vec_len};
ghost use Rattle.single_example.specs.Listed.{list_answer};

use memory_example::two_values;
use one_version::OneVersion;
use single::node::Node;
use single::store::SingleMemory;
use std::io;
use working::Working;

// Makes a memory of two nodes in the table, pushes 7 and then 9, and answers the values at the first two places.
pub fn listed(table: Vec<Node>) -> Option<(u64, u64)>
    ensures { result ≡ list_answer (vec_len table) }
{
    let mut memory = SingleMemory::make(2, 160, table).ok()?;
    let mut work = Working {
        memory: &mut memory,
        order: &OneVersion,
    };
    two_values(&mut work).ok()
}

fn main(rt: HostRuntime) -> io::Result<()> {
    let table = vec![in rt.alloc(); Node::new(0, 0, 0); 2]?;
    match listed(table) {
        Some((first, second)) => println!(rt; "{first} {second}"),
        None => println!(rt; "nothing"),
    }
}
