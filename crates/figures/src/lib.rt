// The worked figures of the rules, shown of the definitions that the contracts cite.
#![tactic(auto)]

ghost use Rattle.figures.specs.Figures.{Figures};

// All figures hold.
pub fn figures_hold() -> u8
    ensures { Figures }
{
    0
}
