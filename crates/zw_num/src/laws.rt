// What holds of the definitions themselves: each law is the contract of a function that does nothing.
ghost use Rattle.std.specs.Prelude.{◌≡◌, ◌≢◌, ◌↔◌, ℕ, ◌+◌, ◌-◌, ◌*◌, ◌/◌, ◌%◌, ◌<◌, ◌≤◌, ◌^◌, min, max, ℤ, pos, neg_ℤ, ◌+ℤ◌, ◌-ℤ◌, ◌*ℤ◌, unsigned_abs, count_ones, Bool, true, false, MatchOption};
ghost use Rattle.std.specs.Int.Count.{count_leading_zeros, count_trailing_zeros};
ghost use Rattle.zw_num.specs.declared.int_ty.IntTy.{IntTy};
ghost use Rattle.zw_num.specs.declared.int_ty.IntTy.TheVariants.{Sized};
ghost use Rattle.zw_num.specs.declared.operator.Arithmetic.{Arithmetic};
ghost use Rattle.zw_num.specs.declared.operator.Division.{Division};
ghost use Rattle.zw_num.specs.declared.operator.Shift.{Shift};
ghost use Rattle.zw_num.specs.declared.operator.Unary.{Unary};
ghost use Rattle.zw_num.specs.declared.operator.Cast.{Cast};
ghost use Rattle.zw_num.specs.declared.operator.Operator.TheVariants as family;
ghost use Rattle.zw_num.specs.Meanings.{arithmetic, division, shift, unary, converted, faults_in, FaultsAmong};
ghost use Rattle.zw_num.specs.Arithmetic.{IsType, IsIn, IsExact, IsCongruent, IsTruncated, IsFloored, HasLeadingZeros, HasTrailingZeros, least, greatest, exact, wrapped, saturated, truncated, floored, rest_of, bit_of, bits_and, bits_or, bits_xor, bits_not, pattern, reversed, digit, ones_of, sum_in, difference_in, add_wrap_unsigned};

/// A signed type of n + 1 bits has the values from -2^n to 2^n - 1, an unsigned type of n bits those from 0 to 2^n - 1, and a
/// type without bits has 0 alone.
pub fn type_ranges()
    ensures signed_least { (n : ℕ) → least (Sized true (n + 1)) ≡ neg_ℤ (pos (2 ^ n)) }
    ensures signed_greatest { (n : ℕ) → greatest (Sized true (n + 1)) ≡ pos (2 ^ n - 1) }
    ensures unsigned { (n : ℕ) (z : ℤ) →
        IsIn (Sized false n) z ↔ ((k : ℕ) × (k < 2 ^ n) × (z ≡ pos k)) }
    ensures no_bits { (signed : Bool) (z : ℤ) → IsIn (Sized signed 0) z ↔ (z ≡ pos 0) }
{}

/// A number has one value of a sized type that differs from it by a multiple of 2^bits.
pub fn wrapped_values()
    ensures in_type { (signed : Bool) (bits : ℕ) (z : ℤ) →
        IsIn (Sized signed bits) (wrapped (Sized signed bits) z) }
    ensures congruent { (signed : Bool) (bits : ℕ) (z : ℤ) →
        IsCongruent bits z (wrapped (Sized signed bits) z) }
    ensures unique { (signed : Bool) (bits : ℕ) (z r : ℤ) →
        IsIn (Sized signed bits) r → IsCongruent bits z r → r ≡ wrapped (Sized signed bits) z }
{}

/// A checked operator's answer is the exact result where the type has it, and else an overflow.
pub fn exact_answers()
    ensures { (ty : IntTy) (z : ℤ) → IsExact ty z (exact ty z) }
{}

/// Where the exact result is a value of the type, wrapping gives it, and so does saturating. To wrap in a wider type first changes
/// nothing: truncating the result of a wider operation is the wrapping operation.
pub fn wrapping_is_exact()
    ensures wrapping { (signed : Bool) (bits : ℕ) (z : ℤ) → IsIn (Sized signed bits) z → wrapped (Sized signed bits) z ≡ z }
    ensures saturating { (ty : IntTy) (z : ℤ) → IsIn ty z → saturated ty z ≡ z }
    ensures truncating { (signed wide_signed : Bool) (bits wide : ℕ) (z : ℤ) → bits ≤ wide →
        wrapped (Sized signed bits) (wrapped (Sized wide_signed wide) z) ≡ wrapped (Sized signed bits) z }
{}

/// Saturating gives the value of the type that is nearest to the number: no value is nearer.
pub fn saturated_values()
    ensures in_type { (ty : IntTy) (z : ℤ) → IsType ty → IsIn ty (saturated ty z) }
    ensures nearest { (ty : IntTy) (z other : ℤ) → IsIn ty other → unsigned_abs (z -ℤ saturated ty z) ≤ unsigned_abs (z -ℤ other) }
{}

/// A number is the divisor times a quotient, and the rest. The quotient rounded toward zero is the one number that leaves a rest
/// nearer to 0 than the divisor and not on the other side of 0 than the number; rounded down, not on the other side than the
/// divisor. This holds of each pair of signs.
pub fn quotients()
    ensures whole { (a b q : ℤ) → a ≡ b *ℤ q +ℤ rest_of a b q }
    ensures truncated { (a b : ℤ) → b ≢ pos 0 → IsTruncated a b (truncated a b) }
    ensures floored { (a b : ℤ) → b ≢ pos 0 → IsFloored a b (floored a b) }
    ensures one_truncated { (a b q : ℤ) → IsTruncated a b q → q ≡ truncated a b }
    ensures one_floored { (a b q : ℤ) → IsFloored a b q → q ≡ floored a b }
{}

/// Each bit of `a & b`, `a | b` and `a ^ b` comes from the bits of both in its place, that of `~a` from a's. A number is known by
/// its bits.
pub fn bit_operators()
    ensures both { (a b : ℤ) (i : ℕ) → bit_of (bits_and a b) i ≡ min (bit_of a i) (bit_of b i) }
    ensures either { (a b : ℤ) (i : ℕ) → bit_of (bits_or a b) i ≡ max (bit_of a i) (bit_of b i) }
    ensures just_one { (a b : ℤ) (i : ℕ) → bit_of (bits_xor a b) i ≡ (bit_of a i + bit_of b i) % 2 }
    ensures turned { (a : ℤ) (i : ℕ) → bit_of (bits_not a) i ≡ 1 - bit_of a i }
    ensures one_number { (a b : ℤ) → ((i : ℕ) → bit_of a i ≡ bit_of b i) → a ≡ b }
{}

/// To negate, to turn all bits or to reverse the order of bits or bytes twice gives the number back.
pub fn twice()
    ensures negated { (a : ℤ) → neg_ℤ (neg_ℤ a) ≡ a }
    ensures turned { (signed : Bool) (bits : ℕ) (a : ℤ) → IsIn (Sized signed bits) a →
        wrapped (Sized signed bits) (bits_not (wrapped (Sized signed bits) (bits_not a))) ≡ a }
    ensures reversed { (base count n : ℕ) → n < base ^ count → reversed base count (reversed base count n) ≡ n }
    ensures as_bits { (signed : Bool) (bits : ℕ) (a : ℤ) → IsIn (Sized signed bits) a → wrapped (Sized signed bits) (pos (pattern bits a)) ≡ a }
    ensures as_value { (signed : Bool) (bits n : ℕ) → n < 2 ^ bits → pattern bits (wrapped (Sized signed bits) (pos n)) ≡ n }
{}

/// A digit of the reversed digits is the one in the opposite place.
pub fn reversals()
    ensures below { (base count n : ℕ) → 0 < base → reversed base count n < base ^ count }
    ensures opposite { (base count n i : ℕ) → 0 < base → i < count → digit base (reversed base count n) i ≡ digit base n (count - 1 - i) }
{}

/// What the counts of bits are: those of zeros stand before the first 1 from above and from below, and the ones and the ones
/// of the turned bits are all bits.
pub fn counts()
    ensures leading { (bits n : ℕ) → n < 2 ^ bits → HasLeadingZeros bits n (count_leading_zeros bits n) }
    ensures trailing { (bits n : ℕ) → n < 2 ^ bits → HasTrailingZeros bits n (count_trailing_zeros bits n) }
    ensures ones { (bits n : ℕ) → n < 2 ^ bits → count_ones n ≡ ones_of bits n }
    ensures all_bits { (bits : ℕ) (a : ℤ) → count_ones (pattern bits a) + count_ones (pattern bits (bits_not a)) ≡ bits }
{}

/// On an unsigned type the operators give what their forms on natural numbers say.
pub fn unsigned_arithmetic()
    ensures sums { (bits a b : ℕ) → MatchOption (sum_in bits a b)
        (¬ IsIn (Sized false bits) (pos a +ℤ pos b))
        (λ n. (pos a +ℤ pos b ≡ pos n) × IsIn (Sized false bits) (pos a +ℤ pos b)) }
    ensures differences { (bits a b : ℕ) → a < 2 ^ bits → MatchOption (difference_in bits a b)
        (¬ IsIn (Sized false bits) (pos a -ℤ pos b))
        (λ n. (pos a -ℤ pos b ≡ pos n) × IsIn (Sized false bits) (pos a -ℤ pos b)) }
    ensures wrapping { (bits a b : ℕ) →
        wrapped (Sized false bits) (pos a +ℤ pos b) ≡ pos (add_wrap_unsigned bits a b) }
{}

/// An operator's meaning faults with nothing that its row doesn't name.
pub fn faults_are_told()
    ensures arithmetic { (op : Arithmetic) (ty : IntTy) (a b : ℤ) → FaultsAmong (faults_in ty (family.Arithmetic op)) (arithmetic op ty a b) }
    ensures division { (op : Division) (ty : IntTy) (a b : ℤ) → FaultsAmong (faults_in ty (family.Division op)) (division op ty a b) }
    ensures shifting { (op : Shift) (ty : IntTy) (a b : ℤ) → FaultsAmong (faults_in ty (family.Shift op)) (shift op ty a b) }
    ensures unary { (op : Unary) (own ty : IntTy) (a : ℤ) → FaultsAmong (faults_in ty (family.Unary op)) (unary op own ty a) }
    ensures casts { (op : Cast) (ty : IntTy) (a : ℤ) → FaultsAmong (faults_in ty (family.Cast op)) (converted op ty a) }
{}
