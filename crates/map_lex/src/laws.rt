//! A law on the definitions alone.

ghost use Rattle.std.specs.Prelude.{◌≡◌, ℕ, List};
ghost use Rattle.map_lex.specs.Cut.{Piece, IsCut};
ghost use Rattle.map_lex.specs.TokenList.{TokenList, AreTokensOf, token_list};

/// A text has exactly one cut, and so exactly one list of tokens.
pub fn one_cut_law()
    ensures cut { (text : List ℕ) → (pieces : List Piece) × IsCut text pieces }
    ensures only_cut { (text : List ℕ) (a b : List Piece) → IsCut text a → IsCut text b → a ≡ b }
    ensures tokens { (text : List ℕ) → AreTokensOf (token_list text) text }
    ensures only_tokens { (text : List ℕ) (list : TokenList) →
        AreTokensOf list text → list ≡ token_list text }
{}
