//! Laws on the definitions alone. The functions are empty: each states as its `ensures` a law that is proved.

ghost use Rattle.std.specs.Prelude.{◌≡◌, ◌↔◌, ℕ, List, None, Some};
ghost use Rattle.cmd_text.specs.Cut.{IsCut};
ghost use Rattle.cmd_text.specs.Meaning.{Means};
ghost use Rattle.cmd_text.specs.Pieces.{cut_of};
ghost use Rattle.cmd_text.specs.Reading.{Read, line_read};
ghost use Rattle.cmd_text.specs.Replies.{OnlyWantSaysMemory};
ghost use Rattle.cmd_text.specs.Rule.{AreRight, IsFirstMisfit};
ghost use Rattle.cmd_text.specs.Table.{misfit_of};
ghost use Rattle.cmd_text.specs.declared.verb.Verb.{Verb};

/// A line is cut into words in one way at most, and `cut_of` finds it where there is one.
pub fn one_cut_law()
    ensures { (line : List ℕ) (words : List (List ℕ)) → (cut_of line ≡ Some words) ↔ IsCut line words }
{}

/// The rule of the first misfit names no word exactly where the words are right. It names a place exactly where the words
/// before it begin right words, and with the next one they begin none; where there is no next, they aren't right themselves.
pub fn misfit_law()
    ensures right { (verb : Verb) (words : List (List ℕ)) → (misfit_of verb words ≡ None) ↔ AreRight verb words }
    ensures first { (verb : Verb) (words : List (List ℕ)) (place : ℕ) → (misfit_of verb words ≡ Some place)
        ↔ IsFirstMisfit (AreRight verb) words place }
{}

/// What a line is read as is the one answer whose meaning is true of the line.
pub fn meaning_law()
    ensures { (line : List ℕ) (read : Read) → (line_read line ≡ read) ↔ Means line read }
{}

/// No reply but that of want of memory begins with the line `memory`.
pub fn want_of_memory_law()
    ensures { OnlyWantSaysMemory }
{}
