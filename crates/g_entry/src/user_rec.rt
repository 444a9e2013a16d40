//! The record of a user.
ghost use Rattle.std.specs.Prelude.{◌≡◌};

use g_name::User;

/// A user. Its number is the position of its record in the directory. SPACE counts blocks of 512 bytes, TIME units.
#[derive(Drop, PartialEq, Eq)]
pub struct UserRec {
    pub number: u8,
    pub user: User,
    /// The superior's number.
    pub superior: u8,
    pub space: u32,
    pub time: u64,
    pub money: u64,
}

impl UserRec {
    /// A copy of the record. It allocates nothing.
    pub fn copy(&self) -> UserRec
        ensures { result ≡ self.now }
    {
        UserRec {
            number: self.number,
            user: self.user.copy(),
            superior: self.superior,
            space: self.space,
            time: self.time,
            money: self.money,
        }
    }
}
