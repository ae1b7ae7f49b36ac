// Why no table is made, and why there is no new item.
ghost use Rattle.std.specs.Prelude.{◌≡◌, Some, None, MatchResult, nat_lt};
ghost use Rattle.linked_lists.specs.Decisions.{maker_refusal, after_refusal};

use refusals::kinds::{MakerRefusal, OrderRefusal};

// Refuses a limit that is not 1 to 4096, and then a table of fewer rows than the limit.
pub fn check_table(limit: u32, rows: usize) -> Result<(), MakerRefusal>
    ensures { MatchResult result (λ _. maker_refusal limit (nat_lt rows limit) ≡ None) (λ e. maker_refusal limit (nat_lt rows limit) ≡ Some e) }
{
    if !(1..=4096).contains(&limit) {
        return Err(MakerRefusal::LimitOutOfRange);
    }
    if rows < limit as usize {
        return Err(MakerRefusal::TableTooShort);
    }
    Ok(())
}

// Of `count` items, refuses a new one behind a where a is unknown, and then where the limit is reached.
pub fn check_new(count: u32, limit: u32, a: u32) -> Result<(), OrderRefusal>
    ensures { MatchResult result (λ _. after_refusal count limit a ≡ None) (λ e. after_refusal count limit a ≡ Some e) }
{
    if a >= count {
        return Err(OrderRefusal::UnknownItem);
    }
    if count >= limit {
        return Err(OrderRefusal::Full);
    }
    Ok(())
}
