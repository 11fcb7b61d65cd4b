// What a byte is where no word and no comment goes on.
ghost use Rattle.std.specs.Prelude.{◌≡◌};
ghost use Rattle.reader.specs.Next.{kind_of};

#[derive(Clone, Copy)]
pub enum Kind {
    Blank,
    Comment,
    Opening,
    Closing,
    Letter,
}

impl From<u8> for Kind {
    ghost from_gives = { λ byte kind. kind ≡ kind_of byte };

    fn from(byte: u8) -> Kind {
        match byte {
            b' ' | b'\n' | b'\r' | b'\t' => Kind::Blank,
            b';' => Kind::Comment,
            b'(' => Kind::Opening,
            b')' => Kind::Closing,
            _ => Kind::Letter,
        }
    }
}
