// States: what the copies stand for, version by version, and what each step of a splitting memory does to it. No code of tables;
// each function below states theorems, which its proof gives.
#![tactic(auto)]

ghost use Rattle.states.specs.Listed.{BehindListed, OpenListed, PositionsStand, ThirdLink};
ghost use Rattle.states.specs.Nodes.{MakeMeans, OpenMeans, RelinkMeans, SetNumberMeans, SplitMeans, SplitRegister, StateClosed};
ghost use Rattle.states.specs.Relinks.{CrowdedMeans, RelinkSound, SetNumberSound};

// A link set with its back links, and a number set, keep the copies sound; a third link is what is crowded.
pub fn changes_keep() -> u8
    ensures link { RelinkSound }
    ensures crowded { CrowdedMeans }
    ensures number { SetNumberSound }
{
    0
}

// What each step does to the states of the versions.
pub fn states_stand() -> u8
    ensures closed { StateClosed }
    ensures split { SplitMeans }
    ensures opening { OpenMeans }
    ensures making { MakeMeans }
    ensures link { RelinkMeans }
    ensures number { SetNumberMeans }
    ensures register { SplitRegister }
{
    0
}

// The same over the list of an order.
pub fn lists_stand() -> u8
    ensures positions { PositionsStand }
    ensures behind { BehindListed }
    ensures opening { OpenListed }
    ensures third { ThirdLink }
{
    0
}
