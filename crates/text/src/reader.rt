// Reading a text part by part, as a line word by word.
ghost use Rattle.std.specs.Prelude.{◌≡◌, ⊤};
ghost use Rattle.std.specs.Option.{option_map};
ghost use Rattle.std.specs.Iterator.{YieldsFirstRef, item_count, MakesProgress};
ghost use Rattle.text.specs.Parts.{parts, words};
ghost use Rattle.text.specs.Left.{left, first_of, behind_first, read_first, is_none, word_is};

use crate::cutting::cut;
use crate::numbers::Number;
use crate::split::Parts;

impl<'a> Parts<'a> {
    // All parts of the text.
    pub fn new(text: &'a [u8], separator: u8) -> Parts<'a>
        ensures { left result ≡ parts separator text.now }
    {
        Parts {
            rest: Some(text),
            separator,
        }
    }

    // All words of the line, which single spaces separate.
    pub fn words(line: &'a [u8]) -> Parts<'a>
        ensures { left result ≡ words line.now }
    {
        Parts::new(line, b' ')
    }

    // Whether all parts are read.
    pub fn is_done(&self) -> bool
        ensures { result ≡ is_none (left self.now) }
    {
        self.rest.is_none()
    }

    // The next part, where it is this text.
    pub fn keyword(&mut self, text: &[u8]) -> Option<()>
        ensures found { result ≡ read_first (word_is text.now) (left self.old) }
        ensures rest { left self.new ≡ behind_first (left self.old) }
    {
        (self.next()? == text).then_some(())
    }

    // The next part, as a number of the kind.
    pub fn number<N: Number>(&mut self) -> Option<N>
        ensures number { result ≡ read_first N.written (left self.old) }
        ensures rest { left self.new ≡ behind_first (left self.old) }
    {
        N::read(self.next()?)
    }
}

impl<'a> Iterator for Parts<'a> {
    type Item = &'a [u8];

    ghost next_gives = { YieldsFirstRef left };

    ghost remaining = { item_count left };

    // The next part.
    fn next(&mut self) -> Option<&'a [u8]>
        ensures part { option_map (λ x. x.now) result ≡ first_of (left self.old) }
        ensures rest { left self.new ≡ behind_first (left self.old) }
        ensures steps { YieldsFirstRef left self.old result self.new }
        ensures goes { MakesProgress (λ _. ⊤) (item_count left) self.old result self.new }
    {
        let text = self.rest?;
        let (part, rest) = cut(text, self.separator);
        self.rest = rest;
        Some(part)
    }
}
