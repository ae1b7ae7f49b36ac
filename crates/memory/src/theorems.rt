// The laws of the abstract memory, each asked for by name.
ghost use Rattle.memory.specs.Laws.{StaysSound, RunsSound, TrueNames, KeepsRest, WorksAlone, SealedStays, StaysSealed, SealedRuns, OpenCopies, EnterKeeps, ThereAndBack, MakesNew, MadeGrows, SerialOnce, KeepsKeys, NodesOfPath};

// Every call keeps a memory sound, and numbers of names are true counts.
pub fn soundness_holds() -> u8
    ensures stays { StaysSound }
    ensures runs { RunsSound }
    ensures names { TrueNames }
{
    0
}

// A call changes the working version alone, and a version other than the draft never changes.
pub fn versions_hold() -> u8
    ensures rest { KeepsRest }
    ensures alone { WorksAlone }
    ensures stays { SealedStays }
    ensures on { StaysSealed }
    ensures runs { SealedRuns }
    ensures copies { OpenCopies }
    ensures keeps { EnterKeeps }
    ensures back { ThereAndBack }
{
    0
}

// No serial number is given twice, a node keeps its key place, and a version's nodes are those born on its path.
pub fn serials_hold() -> u8
    ensures new { MakesNew }
    ensures grows { MadeGrows }
    ensures once { SerialOnce }
    ensures keys { KeepsKeys }
    ensures path { NodesOfPath }
{
    0
}
