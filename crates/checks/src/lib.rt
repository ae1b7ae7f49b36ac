// Examples of keys, books and text, each proved and run.
#![tactic(auto)]

#[cfg(test)]
mod tests {
    use books::book::Book;
    use keys::job::JobKey;
    use keys::key::Key;
    use keys::name::NameKey;
    use keys::piece::PieceKey;
    use refusals::Refusal;
    use std::test::Fail;
    use text::numbers::Number;
    use text::split::{Lines, Parts};

    // The first key goes before the second, and not the other way round.
    fn in_order<K: Key>(a: K, b: K) -> bool {
        a.goes_first(b) && !b.goes_first(a)
    }

    // A key is at this place of the book, and it is this one.
    fn holds<K: Key>(book: &Book<K>, place: usize, key: K) -> bool {
        book.key(place)
            .is_some_and(|found| !found.goes_first(key) && !key.goes_first(found))
    }

    // Fails where a fact does not hold.
    fn check(holds: bool, fact: &str) -> Result<(), Fail> {
        if holds { Ok(()) } else { Err(Fail::new(fact)) }
    }

    // A book with two places keeps two keys as they arrive, and refuses a third.
    fn keeps_two<K: Key>(slots: &mut [K], a: K, b: K) -> Result<(), Fail> {
        let mut book = Book::new(slots);
        check(
            book.count() == 0 && book.room() == 2 && book.key(0).is_none(),
            "a new book has two places and no key",
        )?;
        check(book.push(b)? == 0, "the first key is at place 0")?;
        check(book.push(a)? == 1, "the second key is at place 1")?;
        match book.push(a) {
            Ok(_) => return Err(Fail::new("a third key was taken")),
            Err(refusal) => check(refusal.number() == 13, "a full book refuses with 13")?,
        }
        check(
            book.count() == 2 && book.key(2).is_none(),
            "the book has two keys",
        )?;
        check(
            holds(&book, 0, b) && holds(&book, 1, a),
            "the keys are as they arrived",
        )
    }

    #[test]
    fn books_of_pieces(rt: HostRuntime) -> Result<(), Fail> {
        let a = PieceKey { file: 5, piece: 9 };
        let b = PieceKey { file: 5, piece: 10 };
        assert!(rt; in_order(a, b) && in_order(b, PieceKey { file: 6, piece: 0 }));
        keeps_two(&mut [a; 2], a, b)
    }

    #[test]
    fn books_of_jobs(rt: HostRuntime) -> Result<(), Fail> {
        let most = JobKey {
            urgency: i32::MAX,
            number: 9,
        };
        let least = JobKey {
            urgency: i32::MIN,
            number: 1,
        };
        assert!(rt; in_order(most, least));
        let a = JobKey {
            urgency: 5,
            number: 9,
        };
        let b = JobKey {
            urgency: 5,
            number: 10,
        };
        assert!(rt; in_order(a, b) && in_order(most, a) && in_order(b, least));
        keeps_two(&mut [a; 2], a, b)
    }

    #[test]
    fn books_of_names(rt: HostRuntime) -> Result<(), Fail> {
        let a = NameKey::new(b"ab")?;
        let b = NameKey::new(b"abc")?;
        assert!(rt; in_order(a, b) && in_order(b, NameKey::new(b"b")?));
        keeps_two(&mut [a; 2], a, b)
    }

    // Whether the bytes are refused as a name.
    fn no_name(text: &[u8]) -> bool {
        NameKey::new(text).is_err_and(|refusal| refusal.number() == 14)
    }

    #[test]
    fn lengths_of_names(rt: HostRuntime) -> Result<(), Fail> {
        assert!(rt; no_name(b"") && no_name(b"abcdefghijklmnopq"));
        assert!(rt; NameKey::new(b"a")?.as_bytes() == b"a".as_slice());
        assert!(rt;
            NameKey::new(b"abcdefghijklmnop")?.as_bytes() == b"abcdefghijklmnop".as_slice()
        );
        Ok(())
    }

    #[test]
    fn unsigned_numbers(rt: HostRuntime) {
        assert_eq!(rt; u32::read(b"4294967295"), Some(4294967295));
        assert_eq!(rt; u32::read(b"4294967296"), None);
        assert_eq!(rt;
            u64::read(b"18446744073709551615"),
            Some(18446744073709551615)
        );
        assert_eq!(rt; u64::read(b"18446744073709551616"), None);
        assert_eq!(rt; u64::read(b"0"), Some(0));
        assert_eq!(rt; u64::read(b"007"), None);
        assert_eq!(rt; u64::read(b"+7"), None);
        assert_eq!(rt; u64::read(b""), None);
    }

    #[test]
    fn signed_numbers(rt: HostRuntime) {
        assert_eq!(rt; i32::read(b"2147483647"), Some(i32::MAX));
        assert_eq!(rt; i32::read(b"2147483648"), None);
        assert_eq!(rt; i32::read(b"-2147483648"), Some(i32::MIN));
        assert_eq!(rt; i32::read(b"-2147483649"), None);
        assert_eq!(rt; i32::read(b"-0"), None);
        assert_eq!(rt; i32::read(b"-007"), None);
        assert_eq!(rt; i32::read(b"-"), None);
    }

    #[test]
    fn keys_as_text(rt: HostRuntime) -> Result<(), Fail> {
        let piece = PieceKey { file: 7, piece: 40 };
        let text = piece.to_string(rt.alloc())?;
        assert_eq!(rt; text.as_str(), "7 40");
        assert_eq!(rt; Parts::words(text.as_bytes()).key(), Some(piece));
        let job = JobKey {
            urgency: -3,
            number: 12,
        };
        let text = job.to_string(rt.alloc())?;
        assert_eq!(rt; text.as_str(), "-3 12");
        assert_eq!(rt; Parts::words(text.as_bytes()).key(), Some(job));
        Ok(())
    }

    #[test]
    fn numbers_of_words(rt: HostRuntime) {
        let mut words = Parts::words(b"7 18446744073709551615 -3");
        assert_eq!(rt; words.number::<u32>(), Some(7));
        assert_eq!(rt; words.number::<u64>(), Some(u64::MAX));
        assert_eq!(rt; words.number::<i32>(), Some(-3));
        assert!(rt; words.is_done());
    }

    #[test]
    fn lines_to_answer(rt: HostRuntime) {
        let mut lines = Lines::new(b"one\n\n# two\nthree");
        assert!(rt; lines.next() == Some(b"one".as_slice()));
        assert!(rt; lines.next() == Some(b"three".as_slice()));
        assert!(rt; lines.next().is_none());
    }
}
