// The memory that a player works in, reserved before it begins.
ghost use Rattle.std.specs.Prelude.{◌≡◌, ◌≤◌, [], IsOk, OnOk, vec_capacity};

use rules::{Answer, Call};
use service::Grant;
use std::alloc::{AllocError, Global};

/// Room for grants and for what is written down; both are blank.
pub struct Notebook {
    pub(crate) held: Vec<Grant>,
    pub(crate) log: Vec<(Call, Answer)>,
    ghost no_grants: { held.items ≡ [] },
    ghost blank: { log.items ≡ [] },
}

// Nothing is lost with it: it holds no grant.
impl Drop for Notebook {
    fn drop(self) {
        let Notebook { held, log: _ } = self;
        held.destroy_empty();
    }
}

impl Notebook {
    ghost use Rattle.player.specs.Notebook.{room_in};

    /// A notebook with no room yet.
    pub fn new(heap: Global) -> Notebook
        ensures { room_in result ≡ 0 }
    {
        Notebook {
            held: Vec::new(heap),
            log: Vec::new(heap),
        }
    }

    /// Makes room for so many commands: a grant and a line for each.
    /// It never fails where there is room already.
    pub fn reserve(&mut self, commands: usize) -> Result<(), AllocError>
        ensures room { OnOk result (commands ≤ room_in self.new) }
        ensures kept { room_in self.old ≤ room_in self.new }
        ensures succeeds { commands ≤ room_in self.old → IsOk result }
    {
        self.held.reserve(commands)?;
        self.log.reserve(commands)
    }

    // The two vectors that it is made of.
    pub(crate) fn pages(self) -> (Vec<Grant>, Vec<(Call, Answer)>)
        ensures held { result.0 ≡ self.held }
        ensures log { result.1 ≡ self.log }
    {
        let Notebook { held, log } = self;
        (held, log)
    }
}
