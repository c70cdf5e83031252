// The operators and builtins by the words of rows.
use zw_num::{
    Arithmetic, Bitwise, Cast, Comparison, Count, Division, Extreme, Logic, Measure, Operator,
    Shift, Unary,
};

/// The operators and builtins by their names.
const OPERATORS: [(&str, Operator); 52] = [
    ("add", Operator::Arithmetic(Arithmetic::Add)),
    ("sub", Operator::Arithmetic(Arithmetic::Sub)),
    ("add_wrap", Operator::Arithmetic(Arithmetic::AddWrap)),
    ("mul", Operator::Arithmetic(Arithmetic::Mul)),
    ("div", Operator::Division(Division::Div)),
    ("rem", Operator::Division(Division::Rem)),
    ("sub_wrap", Operator::Arithmetic(Arithmetic::SubWrap)),
    ("mul_wrap", Operator::Arithmetic(Arithmetic::MulWrap)),
    ("add_sat", Operator::Arithmetic(Arithmetic::AddSat)),
    ("sub_sat", Operator::Arithmetic(Arithmetic::SubSat)),
    ("mul_sat", Operator::Arithmetic(Arithmetic::MulSat)),
    ("shl", Operator::Shift(Shift::Shl)),
    ("shr", Operator::Shift(Shift::Shr)),
    ("shl_sat", Operator::Shift(Shift::ShlSat)),
    ("bit_and", Operator::Bitwise(Bitwise::And)),
    ("bit_or", Operator::Bitwise(Bitwise::Or)),
    ("bit_xor", Operator::Bitwise(Bitwise::Xor)),
    ("neg", Operator::Unary(Unary::Neg)),
    ("neg_wrap", Operator::Unary(Unary::NegWrap)),
    ("bit_not", Operator::Unary(Unary::BitNot)),
    ("not", Operator::Logic(Logic::Not)),
    ("equal", Operator::Comparison(Comparison::Equal)),
    ("not_equal", Operator::Comparison(Comparison::NotEqual)),
    ("less", Operator::Comparison(Comparison::Less)),
    (
        "less_or_equal",
        Operator::Comparison(Comparison::LessOrEqual),
    ),
    ("greater", Operator::Comparison(Comparison::Greater)),
    (
        "greater_or_equal",
        Operator::Comparison(Comparison::GreaterOrEqual),
    ),
    ("and", Operator::Logic(Logic::And)),
    ("or", Operator::Logic(Logic::Or)),
    ("as", Operator::Cast(Cast::As)),
    ("bit_size_of", Operator::Measure(Measure::BitSizeOf)),
    ("size_of", Operator::Measure(Measure::SizeOf)),
    ("align_of", Operator::Measure(Measure::AlignOf)),
    ("int_cast", Operator::Cast(Cast::IntCast)),
    ("truncate", Operator::Cast(Cast::Truncate)),
    ("bit_cast", Operator::Cast(Cast::BitCast)),
    ("int_from_bool", Operator::Cast(Cast::IntFromBool)),
    ("div_trunc", Operator::Division(Division::DivTrunc)),
    ("div_floor", Operator::Division(Division::DivFloor)),
    ("div_exact", Operator::Division(Division::DivExact)),
    ("rem_trunc", Operator::Division(Division::RemTrunc)),
    ("mod", Operator::Division(Division::Mod)),
    ("shl_exact", Operator::Shift(Shift::ShlExact)),
    ("shr_exact", Operator::Shift(Shift::ShrExact)),
    ("clz", Operator::Count(Count::Clz)),
    ("ctz", Operator::Count(Count::Ctz)),
    ("pop_count", Operator::Count(Count::PopCount)),
    ("byte_swap", Operator::Unary(Unary::ByteSwap)),
    ("bit_reverse", Operator::Unary(Unary::BitReverse)),
    ("abs", Operator::Unary(Unary::Abs)),
    ("min", Operator::Extreme(Extreme::Min)),
    ("max", Operator::Extreme(Extreme::Max)),
];

/// The operator or builtin of this name.
pub fn operator_named(word: &str) -> Option<Operator> {
    for (name, operator) in OPERATORS {
        if name == word {
            return Some(operator);
        }
    }
    None
}
