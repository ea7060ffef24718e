//! What is posted, and the word that holds it.

ghost use Rattle.std.specs.Prelude.{◌≡◌};
ghost use Rattle.poly_board.specs.Posts.{unpacked};

/// The edition of a desk and the number of its endings.
#[derive(Debug, Drop, Clone, Copy, PartialEq, Eq)]
pub struct Posted {
    /// How many changes the desk's design has had.
    pub edition: u32,
    /// How many tasks have ended.
    pub endings: u32,
}

impl Posted {
    /// The word that holds the numbers: the edition times 2^32 plus the endings.
    pub(crate) fn pack(self) -> u64
        ensures { unpacked result ≡ self }
    {
        u64::from(self.edition) * (1 << 32) + u64::from(self.endings)
    }

    /// The numbers that a word holds.
    pub(crate) fn unpack(word: u64) -> Posted
        ensures { result ≡ unpacked word }
    {
        Posted {
            edition: (word / (1 << 32)) as u32,
            endings: (word % (1 << 32)) as u32,
        }
    }
}
