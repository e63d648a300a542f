//! Commands that can be sent.

ghost use Rattle.std.specs.Prelude.{◌≡◌, ◌∷◌, ◌++◌, [], All, OnOk};
ghost use Rattle.dp_snap.specs.Spelled.{IsSpelled};

use dp_lists::Listed;
use dp_msg_draw::Draw;
use std::alloc::{AllocError, Global};
use std::marker::Model;

/// Commands, each of which has a spelling.
#[derive(Drop)]
pub(crate) struct Commands {
    list: Listed<Draw>,
}

impl Model for Commands {
    ghost use Rattle.std.specs.Prelude.{List, All};
    ghost use Rattle.dp_msg_draw.specs.declared.draw.Draw.{Draw};
    ghost use Rattle.dp_snap.specs.Spelled.{IsSpelled};

    ghost Value = { List Draw };

    ghost view = { λ c. c.list };

    ghost invariant = { λ c. All IsSpelled c.list };
}

impl Commands {
    /// No commands.
    pub(crate) fn new(alloc: Global) -> Commands
        ensures { result ≡ [] }
    {
        Commands {
            list: Listed::new(alloc),
        }
    }

    /// Where its memory comes from.
    pub(crate) fn allocator(&self) -> Global {
        self.list.allocator()
    }

    /// Adds a command at the end.
    pub(crate) fn push(&mut self, command: Draw) -> Result<(), AllocError>
        requires { IsSpelled command }
        ensures { OnOk result (self.new ≡ self.old ++ command ∷ []) }
    {
        self.list.push(command)
    }

    /// The commands as a list.
    pub(crate) fn into_list(self) -> Listed<Draw>
        ensures value { result ≡ self }
        ensures spelled { All IsSpelled self }
    {
        self.list
    }
}
