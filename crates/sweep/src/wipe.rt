ghost use Rattle.dead_code_elimination.specs.Elimination.{Zero};

// Holds the mark bytes, which are the host's, while they are used, and zeroes them however that ends.
pub(super) struct Wipe<'a> {
    pub(super) marks: &'a mut [u8],
}

impl Drop for Wipe<'_> {
    fn drop(self)
        ensures { Zero self.exit.0.now }
    {
        self.marks.fill(0);
        let Wipe { marks: _ } = self;
    }
}
