// Lines of a text that are to be answered: not the empty ones, and not those that start with #.
ghost use Rattle.std.specs.Prelude.{◌≡◌, ◌<◌, filter, length, OnSome};
ghost use Rattle.std.specs.Option.{option_map};
ghost use Rattle.std.specs.Iterator.{YieldsFirstRef, item_count};
ghost use Rattle.text.specs.Parts.{parts};
ghost use Rattle.text.specs.Left.{left};
ghost use Rattle.text.specs.Lines.{told, next_told, behind_told, told_left};

use crate::split::{Lines, Parts};

// Whether a line is to be answered.
fn is_told(line: &[u8]) -> bool
    ensures { result ≡ told line.now }
{
    match line {
        [] => false,
        [first, ..] => *first != b'#',
    }
}

impl<'a> Parts<'a> {
    // The next part that is to be answered; those before it are passed over.
    pub fn line(&mut self) -> Option<&'a [u8]>
        ensures line { option_map (λ x. x.now) result ≡ next_told (left self.old) }
        ensures rest { left self.new ≡ behind_told (left self.old) }
        ensures fewer { OnSome result (length (left self.new) < length (left self.old)) }
    {
        self.find(|part| is_told(part))
    }
}

impl<'a> Lines<'a> {
    // All lines of the text that are to be answered; byte 10 ends a line.
    pub fn new(text: &'a [u8]) -> Lines<'a>
        ensures { told_left result ≡ filter told (parts 10 text.now) }
    {
        Lines {
            parts: Parts::new(text, b'\n'),
        }
    }
}

impl<'a> Iterator for Lines<'a> {
    type Item = &'a [u8];

    ghost next_gives = { YieldsFirstRef told_left };

    ghost remaining = { item_count told_left };

    fn next(&mut self) -> Option<&'a [u8]> {
        self.parts.line()
    }
}
