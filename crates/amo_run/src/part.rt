//! What stands in a book of a run.
ghost use Rattle.std.specs.Prelude.{◌≡◌, ◌<◌, ◌^◌};
ghost use Rattle.amo_run.specs.Parts.{clients_of, hosts_of};

/// Which hosts stand in a book.
#[derive(Clone, Copy, PartialEq, Eq)]
pub enum Part {
    Both,
    Senders,
    Receivers,
}

impl Part {
    /// How many of so many clients call the sides of these hosts.
    pub fn clients(self, all: u32) -> u32
        ensures { result ≡ clients_of self all }
    {
        match self {
            Part::Both => all,
            Part::Senders => all / 2 + all % 2,
            Part::Receivers => all / 2,
        }
    }

    /// The number of the client in this place among them.
    pub fn client(self, place: u32) -> u32
        requires { place < 2 ^ 16 }
    {
        match self {
            Part::Both => place,
            Part::Senders => 2 * place,
            Part::Receivers => 2 * place + 1,
        }
    }

    /// How many hosts there are.
    pub fn hosts(self) -> usize
        ensures { result ≡ hosts_of self }
    {
        match self {
            Part::Both => 2,
            Part::Senders => 1,
            Part::Receivers => 1,
        }
    }
}
