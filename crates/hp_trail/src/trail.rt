//! Where the entries of one part go.
ghost use Rattle.std.specs.Prelude.{◌≡◌, ℕ, Bool, List, Option, Some, None, is_some, true, false, length};
ghost use Rattle.hp_trail.specs.Keeping.{has_room, one_less, with_entry};

/// Keeps the entries of one part, or nothing.
///
/// Some of its places are for closing entries alone. A part whose invariant says that as many
/// places are left as closing entries may yet come always has room for one: an entry of another
/// kind leaves all of those, and a closing one takes one.
pub trait Trail<E> {
    /// Whether trails of this type keep their entries.
    ghost keeps: { Bool };

    /// The entries so far, if they are kept.
    ghost entries: { Self → Option (List E) };

    /// How many entries more there are places for, if these are counted.
    ghost left: { Self → Option ℕ };

    /// How many of the places are for closing entries alone.
    ghost extra: { Self → ℕ };

    /// Whether entries are kept.
    fn is_kept(&self) -> bool
        ensures kept { result ≡ is_some (entries self.now) }
        ensures keeps { result ≡ keeps };

    /// How many entries are kept.
    fn place(&self) -> u64
        ensures kept { (es : List E) → entries self.now ≡ Some es → result ≡ length es }
        ensures none { entries self.now ≡ None → result ≡ 0 };

    /// Whether another entry has room. What has room has it as a closing entry too, and where none is kept there is room
    /// always.
    fn has_room(&self, closing: bool) -> bool
        ensures room { result ≡ has_room closing (left self.now) (extra self.now) }
        ensures closing { result ≡ true → has_room true (left self.now) (extra self.now) ≡ true }
        ensures full { result ≡ false → keeps ≡ true };

    /// Adds an entry.
    fn push(&mut self, entry: E)
        requires { has_room true (left self.old) (extra self.old) ≡ true }
        ensures entries { entries self.new ≡ with_entry (entries self.old) entry }
        ensures left { left self.new ≡ one_less (left self.old) }
        ensures extra { extra self.new ≡ extra self.old };

    // entries are there just where the type keeps them
    ghost kept: { (t : Self) → is_some (entries t) ≡ keeps };

    // where it keeps none, no places are counted
    ghost uncounted: { (t : Self) → keeps ≡ false → left t ≡ None };
}
