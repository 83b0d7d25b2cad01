//! What holds of edits.
ghost use Rattle.std.specs.Prelude.{◌≡◌, ◌+◌, ◌<◌, ◌≤◌, ℕ, List, Some, IsFalse, length, slice_get};
ghost use Rattle.dm_token.specs.Places.{line_at, place_of};
ghost use Rattle.dm_token.specs.declared.expansion.Definition.{Definition};
ghost use Rattle.dm_token.specs.declared.token.PpToken.{PpToken};
ghost use Rattle.dm_edit.specs.declared.change.Change.{Change};
ghost use Rattle.dm_edit.specs.Cuts.{Cut, IsCut, LiesIn, before_body, body_end, is_blank, last_token};
ghost use Rattle.dm_edit.specs.Edits.{IsEdited, KeepsLines, before_changed_body, with_change};
ghost use Rattle.dm_edit.specs.Moves.{EndsBefore, moved_change, moved_offset, moved_place};

/// A definition lies in the bytes of its file where its `#`, the end of its head and its last token stand in this order
/// inside them, and that token doesn't begin with a space or a tab.
pub fn a_definition_lies()
    ensures { (bytes : List ℕ) (definition : Definition) (last : PpToken) (byte : ℕ) →
        last_token definition.body ≡ Some last → definition.hash ≤ definition.head_end →
        definition.head_end ≤ last.place.byte → last.place.byte < last.end → last.end ≤ length bytes →
        slice_get bytes last.place.byte ≡ Some byte → IsFalse (is_blank byte) → LiesIn bytes definition }
{}

/// An edit gives one text.
pub fn one_edit()
    ensures { (bytes : List ℕ) (change : Change) (edited other : List ℕ) →
        IsEdited bytes change edited → IsEdited bytes change other → edited ≡ other }
{}

/// Where an edit keeps lines, each byte that stays is on the line of the same number: before the definition, in its
/// body, and behind it.
pub fn lines_stay()
    ensures before { (bytes edited : List ℕ) (change : Change) (offset : ℕ) → IsEdited bytes change edited →
        offset ≤ change.definition.hash → line_at edited offset ≡ line_at bytes offset }
    ensures inside { (bytes : List ℕ) (change : Change) (cut : Cut) (offset : ℕ) → IsCut bytes change.definition cut →
        KeepsLines bytes change → offset ≤ length cut.body →
        line_at (with_change cut change) (length (before_changed_body cut change) + offset)
        ≡ line_at bytes (length (before_body cut) + offset) }
    ensures behind { (bytes edited : List ℕ) (change : Change) (end offset : ℕ) → IsEdited bytes change edited →
        KeepsLines bytes change → body_end change.definition ≡ Some end → end ≤ offset →
        line_at edited (moved_offset (length bytes) (length edited) offset) ≡ line_at bytes offset }
{}

/// Before a definition all places stay. On the lines behind it they move by what the file grows or shrinks, and lines
/// and columns stay.
pub fn places_move()
    ensures before { (file : ℕ) (bytes edited : List ℕ) (change : Change) (offset : ℕ) → IsEdited bytes change edited →
        offset ≤ change.definition.hash → place_of file edited offset ≡ place_of file bytes offset }
    ensures behind { (file : ℕ) (bytes edited : List ℕ) (change : Change) (end offset : ℕ) → IsEdited bytes change edited →
        KeepsLines bytes change → body_end change.definition ≡ Some end → end ≤ offset →
        line_at bytes end < line_at bytes offset →
        place_of file edited (moved_offset (length bytes) (length edited) offset)
        ≡ moved_place (length bytes) (length edited) (place_of file bytes offset) }
{}

/// Two edits of one file give the same bytes in either order: the second definition is moved by what the first edit
/// makes the file grow or shrink, and the first stays.
pub fn edits_commute()
    ensures { (bytes once other : List ℕ) (first second : Change) →
        EndsBefore first.definition second.definition → IsEdited bytes first once → IsEdited bytes second other →
        (both : List ℕ) × IsEdited once (moved_change (length bytes) (length once) second) both × IsEdited other first both }
{}
