use hours::OutOfRange;
use refusal::Refusal;
use std::io;

// Why no sheet could be made.
#[derive(Debug, Drop)]
pub enum Fault {
    Range(OutOfRange),
    Refused(Refusal),
    Output(io::Error),
}

impl From<OutOfRange> for Fault {
    fn from(e: OutOfRange) -> Fault {
        Fault::Range(e)
    }
}

impl From<Refusal> for Fault {
    fn from(e: Refusal) -> Fault {
        Fault::Refused(e)
    }
}

impl From<io::Error> for Fault {
    fn from(e: io::Error) -> Fault {
        Fault::Output(e)
    }
}
