ghost use Rattle.std.specs.Prelude.{◌<◌};

// How marks are read while a block is looked at: those above `base` are of this function, and `own` is the block's. The marks are passed
// beside it: as a field, each method would have to say too that they, the base and the block's own stay the same.
#[derive(Clone, Copy)]
pub struct Turn {
    pub base: u64,
    pub own: u64,
    pub ghost above: { base < own },
}
