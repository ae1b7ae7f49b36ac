// The interface of key types. Map, queues and books are written once, for every type that keeps its laws.
ghost use Rattle.std.specs.Prelude.{◌≡◌, Bool, true, false};

// A key: of two different keys one goes first.
// `Ord` has no law that keys which tie are one key, and it would ask for two impls by hand, each with its laws, for jobs and again for names.
pub trait Key: Copy {
    // the first key goes before the second
    ghost first: { Self → Self → Bool };

    // Whether this key goes before the other.
    fn goes_first(self, other: Self) -> bool
        ensures { result ≡ first self other };

    // no key goes before itself
    ghost irreflexive: { (a : Self) → first a a ≡ false };

    // what goes before a key goes before all that follow it
    ghost transitive: { (a b c : Self) → first a b ≡ true → first b c ≡ true → first a c ≡ true };

    // of two different keys one goes first: where neither does, they are one key
    ghost total: { (a b : Self) → first a b ≡ false → first b a ≡ false → a ≡ b };
}
