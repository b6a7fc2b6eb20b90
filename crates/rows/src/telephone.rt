// Telephone numbers: which are national, and which are the same.
ghost use Rattle.std.specs.Prelude.{◌≡◌};
ghost use Rattle.rows.specs.Telephone.{national, same_number};

use crate::{Nature, Number};

pub(crate) fn national(nature: Nature) -> bool
    ensures { result ≡ national nature }
{
    nature == Nature::National
}

// For hosts: whether two numbers are the same. No row asks it.
pub fn same_number(a: Number, b: Number) -> bool
    ensures { result ≡ same_number a b }
{
    a == b
}
