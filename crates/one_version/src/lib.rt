// The order of a single version: it holds item 0 alone, and takes no other. Single-version memory is run with it.
#![tactic(auto)]

ghost use Rattle.std.specs.Prelude.{◌≡◌, ◌≢◌, ◌∷◌, [], MatchResult};
ghost use Rattle.std.proofs.Common.{rules};

use order::VersionOrder;
use refusals::kinds::OrderRefusal;

#[derive(Clone, Copy)]
pub struct OneVersion;

// Refuses every item but 0.
fn known(a: u32) -> Result<(), OrderRefusal>
    ensures { MatchResult result (λ _. a ≡ 0) (λ e. (a ≢ 0) × (e ≡ OrderRefusal.UnknownItem)) }
{
    if a != 0 {
        return Err(OrderRefusal::UnknownItem);
    }
    Ok(())
}

impl VersionOrder for OneVersion {
    ghost items = { λ o. 0 ∷ [] };

    ghost limit = { λ o. 1 };

    ghost once = { Prim.search rules };

    ghost within = { Prim.search rules };

    ghost numbered = { Prim.search rules };

    fn count(&self) -> u32 {
        1
    }

    fn before(&self, a: u32, b: u32) -> Result<bool, OrderRefusal> {
        known(a)?;
        known(b)?;
        Ok(false)
    }

    fn successor(&self, a: u32) -> Result<Option<u32>, OrderRefusal> {
        known(a)?;
        Ok(None)
    }

    fn after(&mut self, a: u32) -> Result<u32, OrderRefusal> {
        known(a)?;
        Err(OrderRefusal::Full)
    }
}
