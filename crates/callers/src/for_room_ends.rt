//! A caller of `room_ends`, as docs/CALLING.md shows it.

ghost use Rattle.std.specs.Prelude.{◌≡◌, ◌∷◌, ◌++◌, [], true};
ghost use Rattle.room_ends.specs.Windows.{letters_sent, is_gone};
ghost use Rattle.room_ends.specs.declared.letters.Letter.TheVariants.{Withdrawal, Farewell};

use room_ends::Window;

/// Withdraws the first record that a window sent, says farewell, and answers whether both were sent.
pub fn withdraw_and_leave(window: &mut Window) -> bool
    ensures sent { result ≡ true → letters_sent window.new ≡ (letters_sent window.old ++ Withdrawal 0 ∷ []) ++ Farewell ∷ [] }
    ensures gone { result ≡ true → is_gone window.new ≡ true }
{
    window.withdraw(0).is_ok() && window.bye().is_ok()
}
