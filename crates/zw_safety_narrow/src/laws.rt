// What holds of the code itself.
ghost use Rattle.zw_num.specs.declared.operator.Operator.{Operator};
ghost use Rattle.zw_safety_narrow.specs.Families.{narrow_code};
ghost use Rattle.zw_safety_narrow.specs.Operators.{IsServedIn32, IsRight};
ghost use Rattle.zw_safety_narrow.specs.declared.setting.Setting.{Setting};

/// The code of each operator that is served on types of at most 32 bits is right wherever it stands.
pub fn narrow_code_is_right()
    ensures { (operator : Operator) (setting : Setting) → IsServedIn32 operator setting → IsRight operator setting (narrow_code operator setting) }
{}
