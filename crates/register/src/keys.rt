// What a register asks of a kind of key.
ghost use Rattle.std.specs.Prelude.{◌≡◌, Bool, Decides};

// A kind of key: two keys are the same exactly when their contents are equal.
// Not by `==`, which a kind may lack, or have coarser than that.
pub trait Key: Copy {
    ghost alike: { Self → Self → Bool };

    fn same(&self, other: &Self) -> bool
        ensures { result ≡ alike self.now other.now };

    ghost decides: { (x y : Self) → Decides (alike x y) (x ≡ y) };
}

// A kind of key that has a blank, which is what a cleared place has.
// Not `Default`, which says what a value may be: what a cleared register has is said whole.
pub trait Blank: Copy {
    ghost blank: { Self };

    fn blank() -> Self
        ensures { result ≡ blank };
}
