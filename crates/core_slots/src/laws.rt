//! Laws of slots: each is the contract of a function that does nothing, so that a caller can use it.
ghost use Rattle.std.specs.Prelude.{◌≡◌, ℕ, ◌<◌, ◌^◌, false, None, Option, List, length};
ghost use Rattle.core_laws.specs.Maps.{entry_at, map_of};
ghost use Rattle.core_slots.specs.SlotLayout.{filled, slot, is_other, IsOnPath, IsLaidOut};
ghost use Rattle.core_slots.specs.Probe.{probe};

/// A path meets each slot once.
pub fn path_meets_once()
    ensures { (h lg i j : ℕ) → i < 2 ^ lg → j < 2 ^ lg → probe h lg i ≡ probe h lg j → i ≡ j }
{}

/// The slot where a search for a hash ends holds what the map has at that hash.
pub fn search_finds<X>()
    ensures { (key : X → ℕ) (lg h p : ℕ) (slots : List (Option X))
        → IsLaidOut key lg slots
        → IsOnPath key lg slots h p
        → is_other key h (slot slots p) ≡ false
        → entry_at key (map_of key (filled slots)) h ≡ slot slots p }
{}

/// While not all slots are taken, the path of every hash that no slot holds meets a free slot.
pub fn path_ends_free<X>()
    ensures { (key : X → ℕ) (lg h : ℕ) (slots : List (Option X))
        → IsLaidOut key lg slots
        → length (filled slots) < 2 ^ lg
        → entry_at key (map_of key (filled slots)) h ≡ None
        → (p : ℕ) × (IsOnPath key lg slots h p × (slot slots p ≡ None)) }
{}
