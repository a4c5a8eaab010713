//! The close of a bank, for C; include/lwkt.h declares it.
ghost use Rattle.std.specs.Prelude.{◌≡◌, ◌≢◌, ◌⊎◌, None, IsSomeAnd, length};
ghost use Rattle.lwkt_bank.specs.declared.closed.Closed.{Closed};
ghost use Rattle.lwkt_seats.specs.Closes.{SomeHolds, IsWide, ClosesDesk};
ghost use Rattle.lwkt_seats.specs.Closings.{PutsClosings};

use crate::closings::{LwktClosing, put_closings};
use crate::desks::CLOSED;
use crate::handles::LwktBank;

/// Closes a bank whose seats hold nothing, and puts what each token came to in its place. Every later call on the bank answers 52. It takes no memory.
///
/// 0, and the closing values of the tokens, from the first place on; or, at the first seat for which it is so, 52 where the bank is closed,
/// 50 while another call has the seat, 53 where it was given up as lost, so that the bank is still in use, and 51 where it holds a token;
/// else 39 where there are more tokens than places for them. All is then as it was. A bank of zeros counts as one that is closed.
#[unsafe(no_mangle)]
pub extern "C" fn lwkt_bank_close(bank: LwktBank, closings: &mut [LwktClosing]) -> u32
    ensures closed { result ≡ 0 → (closed : Closed) × (IsSomeAnd bank.desk (λ desk. ClosesDesk desk (length closings.old) closed) × PutsClosings closed closings.old closings.new) }
    ensures holds { result ≡ 51 → IsSomeAnd bank.desk (λ desk. SomeHolds desk) }
    ensures wide { result ≡ 39 → IsSomeAnd bank.desk (λ desk. IsWide desk (length closings.old)) }
    ensures zeros { bank.desk ≡ None → result ≡ 52 }
    ensures only { (result ≡ 0) ⊎ ((result ≡ 39) ⊎ ((result ≡ 50) ⊎ ((result ≡ 51) ⊎ ((result ≡ 52) ⊎ (result ≡ 53))))) }
    ensures kept { result ≢ 0 → closings.new ≡ closings.old }
{
    let Some(desk) = bank.desk() else {
        return CLOSED;
    };
    match desk.close(closings.len()) {
        Ok(closed) => {
            put_closings(&closed, closings);
            0
        }
        Err(answer) => answer,
    }
}
