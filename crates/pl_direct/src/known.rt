//! Values that are known with their types.

ghost use Rattle.std.specs.Prelude.{◌≡◌, IfSome};
ghost use Rattle.pl_direct.specs.Fitted.{Fits};
ghost use Rattle.pl_direct.specs.Known.{Holds, value_of};

use pl_base::{Ty, Value};

/// A value that isn't null. Its variant is its type.
#[derive(Clone, Copy, Debug, PartialEq, Eq)]
pub enum Known {
    Int(i32),
    Big(i64),
    Bool(bool),
}

impl Known {
    /// The same as a value.
    pub fn value(self) -> Value
        ensures { result ≡ value_of self }
    {
        match self {
            Known::Int(number) => Value::Int(number),
            Known::Big(number) => Value::Big(number),
            Known::Bool(truth) => Value::Bool(truth),
        }
    }

    /// The same as a number or a truth of this type, as an assignment casts it. None where the type
    /// is neither, or can't hold it.
    #[inline(always)]
    pub fn fitted(self, ty: &Ty) -> Option<Value>
        ensures { IfSome result (λ v. Fits self ty.now v) }
    {
        match self {
            Known::Int(number) => match ty {
                Ty::Int => Some(Value::Int(number)),
                Ty::Big => Some(Value::Big(i64::from(number))),
                _ => None,
            },
            Known::Big(number) => match ty {
                Ty::Int => match i32::try_from(number) {
                    Ok(number) => Some(Value::Int(number)),
                    Err(_) => None,
                },
                Ty::Big => Some(Value::Big(number)),
                _ => None,
            },
            Known::Bool(truth) => match ty {
                Ty::Bool => Some(Value::Bool(truth)),
                _ => None,
            },
        }
    }

    /// The value of a variable of this type. None where it is null, or of another type.
    pub(crate) fn of(ty: &Ty, value: &Value) -> Option<Known>
        ensures { IfSome result (λ known. Holds known ty.now value.now) }
    {
        match (ty, value) {
            (Ty::Int, Value::Int(number)) => Some(Known::Int(*number)),
            (Ty::Big, Value::Big(number)) => Some(Known::Big(*number)),
            (Ty::Bool, Value::Bool(truth)) => Some(Known::Bool(*truth)),
            _ => None,
        }
    }
}
