// Why a rule finds nothing.
ghost use Rattle.std.specs.Prelude.{◌≡◌};
ghost use Rattle.workspace.specs.declared.refusal.Refusal.{Refusal};

use lent::NoRoom;

// It does not fit; or there was no room, in the words that were lent or in the store.
#[derive(Clone, Copy, Debug, PartialEq, Eq)]
pub enum Refusal {
    Unfit,
    NoRoom,
}

impl From<NoRoom> for Refusal {
    ghost from_gives = { λ e r. r ≡ Refusal.NoRoom };

    fn from(_: NoRoom) -> Refusal {
        Refusal::NoRoom
    }
}
