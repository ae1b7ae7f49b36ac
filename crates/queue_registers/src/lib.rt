// The register that is nil for the queues. The function here names a theorem by its contract; nothing of it is run.
#![tactic(auto)]

ghost use Rattle.queue_registers.specs.Registers.{NilStays};

// The queues' rows of steps leave register 35 as it was.
pub fn registers_hold() -> u8
    ensures { NilStays }
{
    0
}
