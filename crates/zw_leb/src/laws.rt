// What holds of the spellings themselves: each law is the contract of a function that does nothing.
ghost use Rattle.std.specs.Prelude.{◌≡◌, ℕ, ◌<◌, ◌≤◌, ◌^◌, ℤ, negsuc, List, [], ◌∷◌, ◌++◌, length, FitsSigned};
ghost use Rattle.std.specs.Int.{w32, w64};
ghost use Rattle.zw_leb.specs.Leb.{IsUnsigned, IsSigned, unsigned, signed};
ghost use Rattle.zw_leb.specs.Reading.{BeginsUnsigned, BeginsSigned};

/// No spelling of a number begins another, so a number is read again whatever follows it.
pub fn one_number()
    ensures unsigned { (bits : ℕ) (a b x y : List ℕ) (m n : ℕ) → IsUnsigned bits a m → IsUnsigned bits b n → a ++ x ≡ b ++ y → (a ≡ b) × (m ≡ n) }
    ensures signed { (bits : ℕ) (a b x y : List ℕ) (m n : ℤ) → IsSigned bits a m → IsSigned bits b n → a ++ x ≡ b ++ y → (a ≡ b) × (m ≡ n) }
{}

/// The shortest spelling of a number is one of its spellings, and none has fewer bytes.
pub fn shortest_number()
    ensures unsigned { (n : ℕ) → n < 2 ^ 32 → IsUnsigned 32 (unsigned n) n }
    ensures signed_32 { (z : ℤ) → FitsSigned w32 z → IsSigned 32 (signed z) z }
    ensures signed_64 { (z : ℤ) → FitsSigned w64 z → IsSigned 64 (signed z) z }
    ensures no_shorter { (bits : ℕ) (bytes : List ℕ) (n : ℕ) → IsUnsigned bits bytes n → length (unsigned n) ≤ length bytes }
    ensures no_shorter_signed { (bits : ℕ) (bytes : List ℕ) (z : ℤ) → IsSigned bits bytes z → length (signed z) ≤ length bytes }
{}

/// A number has longer spellings beside its shortest, of as many bytes as its bits need at most, and none past its bits.
pub fn longer_numbers()
    ensures unsigned { IsUnsigned 32 (0xAA ∷ 0x80 ∷ 0x80 ∷ 0x80 ∷ 0x00 ∷ []) 42 }
    ensures signed { IsSigned 32 (0xFE ∷ 0xFF ∷ 0x7F ∷ []) (negsuc 1) }
    ensures five_bytes { (bytes : List ℕ) (n : ℕ) → IsUnsigned 32 bytes n → length bytes ≤ 5 }
    ensures five_signed_bytes { (bytes : List ℕ) (z : ℤ) → IsSigned 32 bytes z → length bytes ≤ 5 }
    ensures ten_signed_bytes { (bytes : List ℕ) (z : ℤ) → IsSigned 64 bytes z → length bytes ≤ 10 }
    ensures below { (bytes : List ℕ) (n : ℕ) → IsUnsigned 32 bytes n → n < 2 ^ 32 }
    ensures within_32 { (bytes : List ℕ) (z : ℤ) → IsSigned 32 bytes z → FitsSigned w32 z }
    ensures within_64 { (bytes : List ℕ) (z : ℤ) → IsSigned 64 bytes z → FitsSigned w64 z }
{}

/// What is spelled shortest is read as it was, whatever follows it.
pub fn read_back()
    ensures unsigned { (n m len : ℕ) (rest : List ℕ) → n < 2 ^ 32 → BeginsUnsigned 32 (unsigned n ++ rest) m len → (m ≡ n) × (len ≡ length (unsigned n)) }
    ensures signed_32 { (z y : ℤ) (len : ℕ) (rest : List ℕ) → FitsSigned w32 z → BeginsSigned 32 (signed z ++ rest) y len → (y ≡ z) × (len ≡ length (signed z)) }
    ensures signed_64 { (z y : ℤ) (len : ℕ) (rest : List ℕ) → FitsSigned w64 z → BeginsSigned 64 (signed z ++ rest) y len → (y ≡ z) × (len ≡ length (signed z)) }
{}
