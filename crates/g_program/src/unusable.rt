//! Why image and racks can't be used.
use g_base::NoMemory;
use g_devices::PairFault;
use g_forks::Fork;
use std::io::{self, Error, ErrorKind};

/// Why image and racks can't be used. Nothing that they hold has changed.
#[derive(Drop)]
pub(crate) enum Unusable {
    /// They can't be opened or made.
    Racks(PairFault),
    /// The two racks have different histories: each has completed a dump of this number, and they aren't twins.
    Forked(Fork),
}

impl Unusable {
    /// What sort of error it is.
    pub(crate) fn kind(&self) -> ErrorKind {
        match self {
            Unusable::Racks(fault) => fault.kind(),
            Unusable::Forked(_) => ErrorKind::InvalidData,
        }
    }
}

impl From<PairFault> for Unusable {
    fn from(fault: PairFault) -> Unusable {
        Unusable::Racks(fault)
    }
}

impl From<io::Error> for Unusable {
    fn from(error: io::Error) -> Unusable {
        Unusable::Racks(PairFault::from(error))
    }
}

impl From<NoMemory> for Unusable {
    fn from(_fault: NoMemory) -> Unusable {
        Unusable::from(Error::from(ErrorKind::OutOfMemory))
    }
}
