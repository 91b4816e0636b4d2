ghost use Rattle.std.specs.Prelude.{◌≡◌, ℕ, Bool, true, List};

// A kind of key. Whether two keys are the same may depend on a text. It is lent to each call that compares, and not kept in the table,
// since names are written into it between two calls.
pub trait Key {
    ghost alike: { List ℕ → Self → Self → Bool };

    fn same(&self, other: &Self, text: &[u8]) -> bool
        ensures { result ≡ alike text.now self.now other.now };

    ghost reflexive: { (text : List ℕ) (a : Self) → alike text a a ≡ true };

    ghost symmetric: { (text : List ℕ) (a b : Self) → alike text a b ≡ alike text b a };

    ghost transitive: { (text : List ℕ) (a b c : Self) → alike text a b ≡ true → alike text b c ≡ true → alike text a c ≡ true };
}
