// Copies and slices: the theory of which copy serves which version, and of changes, splits, new versions and new nodes. No code of
// tables; each function below states theorems, which its proof gives.
#![tactic(auto)]

ghost use Rattle.slices.specs.Births.{BirthsStay, MakeSound, OneServes};
ghost use Rattle.slices.specs.Changes.{ChangedReads, SetAllSound, SetFieldSlices};
ghost use Rattle.slices.specs.Copies.{ServingTells};
ghost use Rattle.slices.specs.Openings.{OpenSound};
ghost use Rattle.slices.specs.Partners.{PartnersFound, RedirectTwice, SplitIdle, SplitRedirects};
ghost use Rattle.slices.specs.Threads.{OwnsServes, ThreadsStay};
ghost use Rattle.slices.specs.Splits.{SplitSound};

// A split keeps the copies sound and every slice, and touches only partners.
pub fn split_keeps() -> u8
    ensures sound { SplitSound }
    ensures partners { SplitIdle }
    ensures serving { ServingTells }
{
    0
}

// A change alters one field at one version.
pub fn change_keeps() -> u8
    ensures copy { ChangedReads }
    ensures one { SetFieldSlices }
    ensures all { SetAllSound }
{
    0
}

// A new version has the slice of the version before it.
pub fn open_keeps() -> u8
    ensures { OpenSound }
{
    0
}

// A new node has one copy more; a born node has one serving copy at each version.
pub fn make_keeps() -> u8
    ensures sound { MakeSound }
    ensures one { OneServes }
    ensures births { BirthsStay }
{
    0
}

// A split visits the copies that the split copy names, and redirects them to the new one.
pub fn partners_suffice() -> u8
    ensures redirects { SplitRedirects }
    ensures twice { RedirectTwice }
    ensures found { PartnersFound }
{
    0
}

// The next copy of a node tells whether a copy serves a version, and each step keeps the next copies.
pub fn threads_hold() -> u8
    ensures owns { OwnsServes }
    ensures stay { ThreadsStay }
{
    0
}
