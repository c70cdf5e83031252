// Laws of the definitions of tokens and of their values.
ghost use Rattle.std.specs.Prelude.{◌≡◌, ℕ, List, ◌+◌, All, ◌++◌, ◌∷◌, [], ◌==◌, IsTrue, not, filter, take, Some, slice_get};
ghost use Rattle.zw_token.specs.declared.token.TextError.{TextError};
ghost use Rattle.zw_token.specs.declared.token.Token.{Token};
ghost use Rattle.zw_token.specs.declared.token.TokenKind.{TokenKind};
ghost use Rattle.zw_token.specs.Numbers.{digits_value, number_of, is_number, is_decimal, decimal_value};
ghost use Rattle.zw_token.specs.Tables.{signs, NoLongerFront};
ghost use Rattle.zw_token.specs.Tokens.{Tokens, TextStop, BeginsToken, IsOfKind, IsWord, DoNotOverlap, LiesIn, IsTokenAlone};
ghost use Rattle.zw_token.specs.Values.{text_of, has_no_escape};
ghost use Rattle.zw_token.specs.Words.{AreKindsSpelled, AreTablesSpelled};

/// A text has at most one token list.
pub fn one_list()
    ensures { (text : List ℕ) (a b : List Token) → Tokens text a → Tokens text b → a ≡ b }
{}

/// A text has at most one stop.
pub fn one_stop()
    ensures { (text : List ℕ) (at place : ℕ) (a b : TextError) → TextStop text at a → TextStop text place b → (at ≡ place) × (a ≡ b) }
{}

/// A text has a token list or a stop, and never both.
pub fn stop_or_list()
    ensures { (text : List ℕ) (list : List Token) (at : ℕ) (error : TextError) → Tokens text list → TextStop text at error → ⊥ }
{}

/// The tokens of a text lie in it, and don't overlap.
pub fn tokens_in_order()
    ensures within { (text : List ℕ) (list : List Token) → Tokens text list → All (LiesIn text) list }
    ensures apart { (text : List ℕ) (list : List Token) → Tokens text list → DoNotOverlap list }
{}

/// The bytes of a token, taken alone, are a token of its kind.
pub fn tokens_alone()
    ensures { (text : List ℕ) (list : List Token) → Tokens text list → All (IsTokenAlone text) list }
{}

/// A name is a letter or `_` and then letters, digits and `_`.
pub fn names_are_words()
    ensures { (rest : List ℕ) (n : ℕ) → BeginsToken rest TokenKind.Name n → IsWord (take n rest) }
{}

/// A sign is the one with its number, and no longer sign stands where it does.
pub fn signs_are_longest()
    ensures is_sign { (rest : List ℕ) (k n : ℕ) → BeginsToken rest (TokenKind.Sign k) n → slice_get signs k ≡ Some (take n rest) }
    ensures longest { (rest : List ℕ) (k n : ℕ) → BeginsToken rest (TokenKind.Sign k) n → NoLongerFront signs rest n }
{}

/// The digits of a base are worth what they are without `_`.
pub fn digits_alone()
    ensures { (base : ℕ) (digits : List ℕ) → digits_value base digits ≡ digits_value base (filter (λ digit. not (digit == 95)) digits) }
{}

/// Digits alone, without a leading zero, are a number of base 10.
pub fn decimals_are_numbers()
    ensures number { (digits : List ℕ) → IsTrue (is_decimal digits) → IsTrue (is_number digits) }
    ensures value { (digits : List ℕ) → IsTrue (is_decimal digits) → number_of digits ≡ decimal_value digits }
{}

/// A text without escapes is worth its bytes.
pub fn texts_without_escapes()
    ensures { (bytes : List ℕ) → IsOfKind TokenKind.Text (34 ∷ bytes ++ 34 ∷ []) → IsTrue (has_no_escape bytes) → text_of (34 ∷ bytes ++ 34 ∷ []) ≡ bytes }
{}

/// Which words and signs the tables have, and which of them kinds of tokens stand for.
pub fn words_are_spelled()
    ensures tables { AreTablesSpelled }
    ensures kinds { AreKindsSpelled }
{}
