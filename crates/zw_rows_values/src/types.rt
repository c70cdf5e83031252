// Types of a table by their names, and rows of tables of types.
ghost use Rattle.std.specs.Prelude.{◌≡◌, ◌<◌, ℕ, length, List, All, IfSome, true};
ghost use Rattle.zw_types.specs.TypeTrees.{TypeTree};
ghost use Rattle.zw_types.specs.Tables.{IsFormed};
ghost use Rattle.zw_types.specs.Readings.{form_tree, types_in_form};

use std::alloc::Global;
use zw_rows_base::{Field, Line, Mistake, Problem, Report, small};
use zw_types::{TypeForm, TypeId, Types};

/// The number of the type of this name, which has no parts.
pub fn known_type(types: &mut Types, line: Line<'_>, name: &str) -> Result<TypeId, Mistake> {
    match form_of(name) {
        Some(form) => Ok(types.intern(form)?),
        None => Err(Mistake::Wrong(line.number, Problem::UnknownName)),
    }
}

/// Whether the table has all these types.
pub fn are_held(types: &Types, ids: &[TypeId]) -> bool
    ensures { result ≡ true → All (λ id. id.0 < length types.now.trees) ids.now }
{
    ids.iter().all(|id| types.holds(*id))
}

/// The form of this name.
fn form_of(name: &str) -> Option<TypeForm>
    ensures known { IfSome result (λ form. (n : ℕ) → All (λ k. k < n) (types_in_form form)) }
    ensures formed { IfSome result (λ form. (trees : List TypeTree) → IsFormed (form_tree trees form)) }
{
    match name {
        "comptime_int" => Some(TypeForm::ComptimeInt),
        "bool" => Some(TypeForm::Bool),
        "void" => Some(TypeForm::Void),
        "noreturn" => Some(TypeForm::NoReturn),
        "type" => Some(TypeForm::TypeType),
        "null" => Some(TypeForm::Null),
        "undefined" => Some(TypeForm::Undefined),
        "enum_literal" => Some(TypeForm::EnumLiteral),
        "anyerror" => Some(TypeForm::AnyError),
        _ => integer_of(name),
    }
}

/// The form of the integer type of this name.
fn integer_of(name: &str) -> Option<TypeForm>
    ensures known { IfSome result (λ form. (n : ℕ) → All (λ k. k < n) (types_in_form form)) }
    ensures formed { IfSome result (λ form. (trees : List TypeTree) → IsFormed (form_tree trees form)) }
{
    let signed = name.starts_with('i');
    if name == "usize" || name == "isize" {
        return Some(TypeForm::Int {
            signed,
            bits: 32,
            size: true,
        });
    }
    let bits = name.strip_prefix(if signed { 'i' } else { 'u' })?;
    let bits = bits.parse::<u8>().ok()?;
    if bits > 64 {
        return None;
    }
    Some(TypeForm::Int {
        signed,
        bits,
        size: false,
    })
}

/// `types NAME`: calls on one table, which begins without types: `intern FORM = N`, where the form is a type's name or
/// `optional N`, of the type N; and `holds N = true` or `false`.
pub fn check_types(alloc: Global, fields: &[Field<'_>]) -> Result<Report, Mistake> {
    let mut report = Report::new(alloc);
    let mut types = Types::new(alloc);
    for field in fields {
        let Some((given, wanted)) = field.line.rest.split_once(" = ") else {
            return Err(field.wrong(Problem::MissingWord));
        };
        let came = match field.line.word {
            "intern" => interned(alloc, field, &mut types, given)?,
            "holds" => {
                let is_held = types.holds(TypeId(small(field.line, given)?));
                format!(in alloc; "{is_held}")?
            }
            _ => return Err(field.wrong(Problem::UnknownWord)),
        };
        report.compare(given, came.as_bytes(), wanted.as_bytes())?;
    }
    Ok(report)
}

/// The number that a form gets.
fn interned(
    alloc: Global,
    field: &Field<'_>,
    types: &mut Types,
    form: &str,
) -> Result<String, Mistake> {
    let id = match form.strip_prefix("optional ") {
        Some(of) => optional_type(types, field, TypeId(small(field.line, of)?))?,
        None => known_type(types, field.line, form)?,
    };
    let number = id.0;
    Ok(format!(in alloc; "{number}")?)
}

/// The number of the optional of a type that the table has.
fn optional_type(types: &mut Types, field: &Field<'_>, of: TypeId) -> Result<TypeId, Mistake> {
    if types.holds(of) {
        return Ok(types.intern(TypeForm::Optional { of })?);
    }
    Err(field.wrong(Problem::UnknownName))
}
