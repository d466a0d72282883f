// The order that a heap keeps.
ghost use Rattle.std.specs.Prelude.{◌≡◌, Bool, true, false};

// A total order on the elements. `before x y` says that x comes strictly before y. Of any two elements at most one is before
// the other, and "x is not before y" carries on from element to element. So "x is not after y" compares every two elements and
// is transitive. Two elements neither of which is before the other have equal places, as two of equal key. The library's `Ord`
// asks more, that such two are `==`, so it would have to break the ties that a heap leaves open.
pub trait TotalOrder {
    ghost before: { Self → Self → Bool };

    fn precedes(&self, other: &Self) -> bool
        ensures { result ≡ before self.now other.now };

    ghost total: { (x y : Self) → before x y ≡ true → before y x ≡ false };

    ghost transitive: { (x y z : Self) → before x y ≡ false → before y z ≡ false → before x z ≡ false };
}
