// A grant: the right to write one block for one number, which must be handed back by an ending.
ghost use Rattle.std.specs.Prelude.{◌≡◌, true};

/// The right to write one block for one number, until it is handed to commit, abandon or condemn.
/// Its fields are closed to callers, so that none can be forged or taken apart.
pub struct Grant {
    pub(crate) number: u32,
    pub(crate) block: u32,
    // A flag, since the drop below asks for it.
    pub(crate) spent: bool,
}

// Only a spent grant may be let go: a caller that lets one lapse is not proved.
impl Drop for Grant {
    fn drop(self)
        requires { self.spent ≡ true }
    {
        let Grant {
            number: _,
            block: _,
            spent: _,
        } = self;
    }
}

impl Grant {
    /// The number that it was given for.
    pub fn number(&self) -> u32
        ensures { result ≡ self.now.number }
    {
        self.number
    }

    /// The block that it is for.
    pub fn block(&self) -> u32
        ensures { result ≡ self.now.block }
    {
        self.block
    }

    pub(crate) fn spend(mut self) {
        self.spent = true;
    }
}
