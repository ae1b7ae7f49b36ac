// A refusal as text: `refused` and its number.
ghost use Rattle.std.specs.Prelude.{Some};
ghost use Rattle.std.specs.Fmt.{WritesOnOk};
ghost use Rattle.refusals.specs.Numbers.{maker_number, store_number, book_number, name_number, memory_number, order_number};
ghost use Rattle.refusals.specs.Shown.{refused_text};

use crate::Refusal;
use crate::kinds::{
    BookRefusal, MakerRefusal, MemoryRefusal, NameRefusal, OrderRefusal, StoreRefusal,
};
use std::fmt;

// Writes the text of any layer's refusal. Each type below has an impl of its own that says so, since none may be written for every `Refusal`
// at once: the trait `Display` is the library's.
fn write_refused<R: Refusal, W: fmt::Write>(refusal: R, f: &mut fmt::Formatter<W>) -> fmt::Result
    ensures { WritesOnOk W.write_str_gives f.old result (refused_text (R.numbered refusal)) f.new }
{
    let number = refusal.number();
    write!(f, "refused {number}")
}

impl fmt::Display for MakerRefusal {
    ghost output = { λ e. Some (refused_text (maker_number e)) };

    fn fmt<W: fmt::Write>(&self, f: &mut fmt::Formatter<W>) -> fmt::Result {
        write_refused(*self, f)
    }
}

impl fmt::Display for StoreRefusal {
    ghost output = { λ e. Some (refused_text (store_number e)) };

    fn fmt<W: fmt::Write>(&self, f: &mut fmt::Formatter<W>) -> fmt::Result {
        write_refused(*self, f)
    }
}

impl fmt::Display for BookRefusal {
    ghost output = { λ e. Some (refused_text (book_number e)) };

    fn fmt<W: fmt::Write>(&self, f: &mut fmt::Formatter<W>) -> fmt::Result {
        write_refused(*self, f)
    }
}

impl fmt::Display for NameRefusal {
    ghost output = { λ e. Some (refused_text (name_number e)) };

    fn fmt<W: fmt::Write>(&self, f: &mut fmt::Formatter<W>) -> fmt::Result {
        write_refused(*self, f)
    }
}

impl fmt::Display for OrderRefusal {
    ghost output = { λ e. Some (refused_text (order_number e)) };

    fn fmt<W: fmt::Write>(&self, f: &mut fmt::Formatter<W>) -> fmt::Result {
        write_refused(*self, f)
    }
}

impl fmt::Display for MemoryRefusal {
    ghost output = { λ e. Some (refused_text (memory_number e)) };

    fn fmt<W: fmt::Write>(&self, f: &mut fmt::Formatter<W>) -> fmt::Result {
        write_refused(*self, f)
    }
}
