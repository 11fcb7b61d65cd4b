// Terms built anew.
ghost use Rattle.std.specs.Prelude.{◌≡◌, length};
ghost use Rattle.std.proofs.Math.Option.{some};
ghost use Rattle.hol.specs.Base.{Word};
ghost use Rattle.hol.specs.Syntax.{Ty, Tm, abstract as lambda-over};
ghost use Rattle.lent.specs.Answers.{Answers};
ghost use Rattle.store.specs.Measures.{nodes_tm};
ghost use Rattle.store.specs.Builds.{Made};
ghost use Rattle.workspace.specs.Refusals.{Lacks};

use lent::NoRoom;
use rebuild::closing::close;
use store::Store;

// The λ over the variable of name `x` and type `a` with the body `t`, in which the variable is free.
pub fn lambda_over<S: Store>(
    store: &mut S,
    words: &mut [u64],
    x: u64,
    a: u64,
    t: u64,
) -> Result<u64, NoRoom>
    requires name { (w : Word) × ((S.state store.old).contents.word x ≡ some w) }
    requires typ { (b : Ty) × ((S.state store.old).contents.typ a ≡ some b) }
    requires term { (u : Tm) × ((S.state store.old).contents.term t ≡ some u) }
    ensures { (w : Word) (b : Ty) (u : Tm) → (S.state store.old).contents.word x ≡ some w → (S.state store.old).contents.typ a ≡ some b → (S.state store.old).contents.term t ≡ some u → Answers (Lacks (length words.old) (nodes_tm u) (S.state store.old).left (nodes_tm (lambda-over w b u))) (Made (nodes_tm (lambda-over w b u)) (S.state store.old) (S.state store.new) (λ c n. c.term n ≡ some (lambda-over w b u))) result }
{
    let body = close(store, words, x, a, t)?;
    store.lambda(a, body).ok_or(NoRoom)
}
