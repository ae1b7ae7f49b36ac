// Reading all parts that are left.
ghost use Rattle.std.specs.Prelude.{◌≡◌, IfOk, vec_items};
ghost use Rattle.std.specs.Option.{option_map};
ghost use Rattle.text.specs.Left.{left};
ghost use Rattle.text.specs.Numbers.{numbers_of};

use crate::numbers::Number;
use crate::split::Parts;
use std::alloc::{AllocError, Global};

impl<'a> Parts<'a> {
    // The 64-bit numbers that all parts write, or nothing where one does not.
    pub fn numbers(self, heap: Global) -> Result<Option<Vec<u64>>, AllocError>
        ensures { IfOk result (λ o. option_map vec_items o ≡ numbers_of (left self.entry)) }
    {
        let mut numbers = Vec::new(heap);
        for part in self {
            let Some(number) = u64::read(part) else {
                return Ok(None);
            };
            numbers.push(number)?;
        }
        Ok(Some(numbers))
    }
}
