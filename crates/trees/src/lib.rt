// The trees of the map and of the queues, as plain values: what insertion, removal and merge make of them. Each function here names
// theorems by its contract; nothing of it is run.
#![tactic(auto)]

ghost use Rattle.trees.specs.Theorems.{PutSets, DropRemoves, TreeAnswers, ListLawsHold, RulesAreBalanced, MergeJoins, PushAdds, PopTakes, MapIsLow, HeapIsLow};

// Put sets a key's value in the tree's list, drop removes the key, and both keep the rules of a map's tree.
pub fn map_theorems_hold<K>() -> u8
    ensures put { PutSets K }
    ensures drop { DropRemoves K }
    ensures answers { TreeAnswers K }
    ensures lists { ListLawsHold K }
{
    0
}

// The jobs of a queue after merge, push and pop, each as often as it waits there.
pub fn heap_theorems_hold<K>() -> u8
    ensures merge { MergeJoins K }
    ensures push { PushAdds K }
    ensures pop { PopTakes K }
{
    0
}

// The rules of red-black trees in two forms, and how high the trees of 4,096 nodes are.
pub fn shape_theorems_hold<K>() -> u8
    ensures rules { RulesAreBalanced K }
    ensures map { MapIsLow K }
    ensures heap { HeapIsLow K }
{
    0
}
