//! What is displayed: a tree of parts, each of which is opened when its turn comes.

ghost use Rattle.std.specs.Prelude.{◌≡◌, ◌<◌, ℕ, List, IfSome};
ghost use Rattle.serde_json.specs.Data.{Data};
ghost use Rattle.avro_display.specs.Displayed.{AreBelow, IsShown, Opens};
ghost use Rattle.avro_display.specs.declared.member.Member.{Member};

use crate::member::Member;

/// What a part is displayed as: a value, or parts of its own.
pub enum Opened<'a, P> {
    /// Null.
    Null,
    /// A boolean.
    Bool(bool),
    /// A whole number.
    Number(i64),
    /// A text of one character for each byte.
    Bytes(&'a [u8]),
    /// A text.
    Text(&'a str),
    /// An object of one member: its text up to the value, and the value.
    Branch(&'a [u8], P),
    /// An array of so many items.
    Items(P, usize),
    /// An object of so many entries, whose keys are in any order.
    Entries(P, usize),
    /// An object of these members.
    Members(P, &'a [Member]),
}

/// What can be displayed. Nothing of it is kept: a part is opened, displayed and forgotten.
pub trait Displayed {
    /// A part.
    type Part: Copy;

    /// Which JSON a part is displayed as.
    ghost shows: { Self → Self.Part → Data → Type 0 };

    /// Which JSON the item of an array at an index is displayed as.
    ghost item_shows: { Self → Self.Part → ℕ → Data → Type 0 };

    /// Which key and which JSON the entry at an index has.
    ghost entry_shows: { Self → Self.Part → ℕ → List ℕ → Data → Type 0 };

    /// Which JSON the value of a member is displayed as.
    ghost member_shows: { Self → Self.Part → Member → Data → Type 0 };

    /// How many levels of parts there are at most.
    ghost levels: { Self → Self.Part → ℕ };

    /// Opens a part.
    fn open(&self, part: Self::Part) -> Opened<'_, Self::Part>
        ensures opens { (d : Data) → shows self.now part d → Opens (shows self.now) (item_shows self.now) (entry_shows self.now) (member_shows self.now) result d }
        ensures levels { AreBelow (levels self.now) (levels self.now part) result };

    /// The item of an array at an index.
    fn item(&self, array: Self::Part, index: usize) -> Option<Self::Part>
        ensures shows { (d : Data) → item_shows self.now array index d → IsShown (shows self.now) result d }
        ensures levels { IfSome result (λ p. levels self.now p < levels self.now array) };

    /// The key of the entry at an index.
    fn key(&self, object: Self::Part, index: usize) -> &str
        ensures { (k : List ℕ) (d : Data) → entry_shows self.now object index k d → result.now ≡ k };

    /// The value of the entry at an index.
    fn entry(&self, object: Self::Part, index: usize) -> Option<Self::Part>
        ensures shows { (k : List ℕ) (d : Data) → entry_shows self.now object index k d → IsShown (shows self.now) result d }
        ensures levels { IfSome result (λ p. levels self.now p < levels self.now object) };

    /// The value of a member.
    fn member(&self, object: Self::Part, member: &Member) -> Option<Self::Part>
        ensures shows { (d : Data) → member_shows self.now object member.now d → IsShown (shows self.now) result d }
        ensures levels { IfSome result (λ p. levels self.now p < levels self.now object) };
}
