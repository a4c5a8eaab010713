ghost use Rattle.lwkt_text.specs.Outcome.{IsAsRead};

use crate::wrongs::{Slip, Wrong};

/// What was read, or what is wrong.
pub fn checked<T: Drop>(read: Result<T, Wrong>) -> Result<T, Slip>
    ensures { IsAsRead result read }
{
    match read {
        Ok(value) => Ok(value),
        Err(wrong) => Err(Slip::Wrong(wrong)),
    }
}
