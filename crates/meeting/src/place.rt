ghost use Rattle.std.specs.Prelude.{◌<◌};
ghost use Rattle.morton.specs.Coordinate.{largest_side};

// The place from which distances are measured.
#[derive(Clone, Copy)]
pub struct Place {
    pub x: u32,
    pub y: u32,
    ghost x_below: { x < largest_side },
    ghost y_below: { y < largest_side },
}
