// What the printing of a line goes by: whether it reads, the stripe whose records are looked at, and what it picks.
ghost use Rattle.std.specs.Prelude.{◌≡◌};
ghost use Rattle.volumescript.specs.Asking.{is_read};
ghost use Rattle.volumescript.specs.Looking.{clients_looked, nodes_looked, pick_in};

use crate::reader::VolumeLine;
use calls::Call;

impl VolumeLine {
    pub fn is_read(self) -> bool
        ensures { result ≡ is_read self }
    {
        matches!(
            self,
            VolumeLine::One(_, Call::Read(_), _) | VolumeLine::ReadBlock(_)
        )
    }

    // The stripe whose nodes are printed.
    pub fn nodes_of(self) -> Option<usize>
        ensures { result ≡ nodes_looked self }
    {
        match self {
            VolumeLine::Show(s) => Some(s),
            _ => None,
        }
    }

    // The stripe whose clients are printed, or one of them: that which picks.
    pub fn clients_of(self) -> Option<usize>
        ensures { result ≡ clients_looked self }
    {
        match self {
            VolumeLine::One(_, Call::Pick(0), _) => None,
            VolumeLine::One(s, Call::Pick(_), _) | VolumeLine::Show(s) => Some(s),
            _ => None,
        }
    }

    // The stripe, and the client that picks there, if the line is a pick.
    pub fn pick(self) -> Option<(usize, u8)>
        ensures { result ≡ pick_in self }
    {
        match self {
            VolumeLine::One(s, Call::Pick(c), _) => Some((s, c)),
            _ => None,
        }
    }
}
