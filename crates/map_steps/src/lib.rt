// The map's rows of steps, and what they do to the whole working state. Each function here names theorems by its contract; nothing of
// it is run.
#![tactic(auto)]

ghost use Rattle.map_steps.specs.Theorems.{AddInserts, DropRemoves, SetReplaces, GetAnswers, NextAnswers};

// A new key is put into the map, and the value of a key that is there is replaced.
pub fn put_theorems_hold() -> u8
    ensures new { AddInserts }
    ensures old { SetReplaces }
{
    0
}

// A key is taken out of the map; the node taken out has no links then.
pub fn drop_theorems_hold() -> u8
    ensures { DropRemoves }
{
    0
}

// Get and next answer from the map's list, and change nothing but registers.
pub fn read_theorems_hold() -> u8
    ensures get { GetAnswers }
    ensures next { NextAnswers }
{
    0
}
