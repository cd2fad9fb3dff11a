ghost use Rattle.std.specs.Prelude.{◌≡◌};

use reader::place::ReadFault;

// Why a line is not allowed: the reader's fault, whole.
#[derive(Clone, Copy, PartialEq, Eq, Debug)]
pub struct LineFault {
    pub read: ReadFault,
}

impl From<ReadFault> for LineFault {
    ghost from_gives = { λ read fault. fault.read ≡ read };

    fn from(read: ReadFault) -> LineFault {
        LineFault { read }
    }
}
