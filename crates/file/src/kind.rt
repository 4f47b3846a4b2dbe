// The kinds of records, each told by a letter.
ghost use Rattle.std.specs.Prelude.{◌≡◌};
ghost use Rattle.file.specs.Kinds.{Decodes, body_length, letter};

// What a record holds: a port, a flow, a burst row, or the end.
#[derive(Clone, Copy, Debug, PartialEq, Eq)]
pub(crate) enum Kind {
    Port,
    Flow,
    Row,
    End,
}

// A byte that is the letter of no kind.
#[derive(Clone, Copy, Debug, PartialEq, Eq)]
pub(crate) struct UnknownKind(u8);

impl TryFrom<u8> for Kind {
    type Error = UnknownKind;

    ghost try_from_gives = { Decodes };

    fn try_from(byte: u8) -> Result<Kind, UnknownKind> {
        match byte {
            b'P' => Ok(Kind::Port),
            b'F' => Ok(Kind::Flow),
            b'B' => Ok(Kind::Row),
            b'E' => Ok(Kind::End),
            _ => Err(UnknownKind(byte)),
        }
    }
}

impl Kind {
    // The letter that stands at the front of a record.
    pub(crate) fn letter(self) -> u8
        ensures { result ≡ letter self }
    {
        match self {
            Kind::Port => b'P',
            Kind::Flow => b'F',
            Kind::Row => b'B',
            Kind::End => b'E',
        }
    }

    // How many bytes follow the letter.
    pub(crate) fn body_length(self) -> usize
        ensures { result ≡ body_length self }
    {
        match self {
            Kind::Port => 16,
            Kind::Flow => 26,
            Kind::Row => 33,
            Kind::End => 4,
        }
    }
}
