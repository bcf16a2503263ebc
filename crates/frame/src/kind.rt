// The kinds of messages.
ghost use Rattle.std.specs.Prelude.{◌≡◌};
ghost use Rattle.frame.specs.Layout.{number_of};
ghost use Rattle.frame.specs.Reading.{Decodes};

use entry::Refusal;

// Each kind with its TYPE.
#[derive(Clone, Copy, Debug, PartialEq, Eq)]
pub(crate) enum Kind {
    Put = 1,
    Get = 2,
    Del = 3,
    Repl = 4,
    Ok = 16,
    Value = 17,
    NotFound = 18,
    Err = 20,
}

impl From<Kind> for u8 {
    ghost from_gives = { λ kind n. n ≡ number_of kind };

    fn from(kind: Kind) -> u8 {
        kind as u8
    }
}

impl TryFrom<u8> for Kind {
    type Error = Refusal;

    ghost try_from_gives = { Decodes };

    fn try_from(kind: u8) -> Result<Kind, Refusal> {
        match kind {
            1 => Ok(Kind::Put),
            2 => Ok(Kind::Get),
            3 => Ok(Kind::Del),
            4 => Ok(Kind::Repl),
            16 => Ok(Kind::Ok),
            17 => Ok(Kind::Value),
            18 => Ok(Kind::NotFound),
            20 => Ok(Kind::Err),
            _ => Err(Refusal::BadFrame),
        }
    }
}
