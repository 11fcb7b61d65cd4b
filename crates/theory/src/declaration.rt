// One declaration: what was declared, and numbers of the store for its parts.
ghost use Rattle.std.specs.Prelude.{◌≡◌};
ghost use Rattle.theory.specs.Rows.{words_of, Reads};

// A type's or a constant's name, with the constant's type, and the body that it stands for in a definition; or the name of an axiom or a
// theorem, with the theorem's list of assumptions, and the conclusion.
#[derive(Clone, Copy, Debug, PartialEq, Eq)]
pub enum Declaration {
    Type { name: u64 },
    Constant { name: u64, ty: u64 },
    Definition { name: u64, ty: u64, body: u64 },
    Axiom { name: u64, concl: u64 },
    Theorem { name: u64, hyps: u64, concl: u64 },
}

// The four words of a declaration: a code for what was declared, its name, and two parts, 0 where there is none.
impl From<Declaration> for [u64; 4] {
    ghost from_gives = { λ d ws. ws ≡ words_of d };

    fn from(declaration: Declaration) -> [u64; 4] {
        match declaration {
            Declaration::Type { name } => [0, name, 0, 0],
            Declaration::Constant { name, ty } => [1, name, ty, 0],
            Declaration::Definition { name, ty, body } => [2, name, ty, body],
            Declaration::Axiom { name, concl } => [3, name, 0, concl],
            Declaration::Theorem { name, hyps, concl } => [4, name, hyps, concl],
        }
    }
}

// The declaration of four words. Any code but those of the others is that of a theorem.
impl From<[u64; 4]> for Declaration {
    ghost from_gives = { Reads };

    fn from([code, name, first, second]: [u64; 4]) -> Declaration {
        match code {
            0 => Declaration::Type { name },
            1 => Declaration::Constant { name, ty: first },
            2 => Declaration::Definition {
                name,
                ty: first,
                body: second,
            },
            3 => Declaration::Axiom {
                name,
                concl: second,
            },
            _ => Declaration::Theorem {
                name,
                hyps: first,
                concl: second,
            },
        }
    }
}
