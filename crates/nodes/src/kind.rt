// What a node is.
ghost use Rattle.std.specs.Prelude.{◌≡◌};
ghost use Rattle.nodes.specs.Kinds.{Decodes, first_is_node, counts_first};

// Of a node's two parts the second is always a number of a node, or 0. The first is one too, but for a byte and a bound variable.
//   Byte            a byte, and the rest of the name
//   TypeVariable    the name
//   TypeNamed       the name, the arguments
//   TypeCell        the first type, the rest of the list
//   Free            the name, the type
//   Bound           which λ outwards
//   Constant        the name, the types
//   Apply           the function, the argument
//   Lambda          the type, the body
//   TermCell        the first term, the rest of the list
#[derive(Clone, Copy, PartialEq, Eq)]
pub enum Kind {
    Byte = 0,
    TypeVariable = 1,
    TypeNamed = 2,
    TypeCell = 3,
    Free = 4,
    Bound = 5,
    Constant = 6,
    Apply = 7,
    Lambda = 8,
    TermCell = 9,
}

impl Kind {
    // Is the first part a number of a node?
    pub fn first_is_node(self) -> bool
        ensures { result ≡ first_is_node self }
    {
        match self {
            Kind::Byte | Kind::Bound => false,
            _ => true,
        }
    }

    // Is the first part counted in the size?
    pub fn counts_first(self) -> bool
        ensures { result ≡ counts_first self }
    {
        match self {
            Kind::TypeCell | Kind::Apply | Kind::Lambda | Kind::TermCell => true,
            _ => false,
        }
    }
}

// A word that stands for no kind.
#[derive(Clone, Copy, Debug, PartialEq, Eq)]
pub struct UnknownKind;

// The kind that a word stands for: that of `kind as u64`.
impl TryFrom<u64> for Kind {
    type Error = UnknownKind;

    ghost try_from_gives = { Decodes };

    fn try_from(word: u64) -> Result<Self, UnknownKind> {
        match word {
            0 => Ok(Kind::Byte),
            1 => Ok(Kind::TypeVariable),
            2 => Ok(Kind::TypeNamed),
            3 => Ok(Kind::TypeCell),
            4 => Ok(Kind::Free),
            5 => Ok(Kind::Bound),
            6 => Ok(Kind::Constant),
            7 => Ok(Kind::Apply),
            8 => Ok(Kind::Lambda),
            9 => Ok(Kind::TermCell),
            _ => Err(UnknownKind),
        }
    }
}
