ghost use Rattle.std.specs.Prelude.{◌≡◌};

use ds_value::NoMemory;
use op_shape::ShapeWhy;

/// The first fault of a flow's shape and the operator at which it stands, or want of memory.
#[derive(Clone, Copy, Debug, PartialEq, Eq)]
pub enum ShapeFault {
    Bad { why: ShapeWhy, op: u32 },
    Memory,
}

impl From<NoMemory> for ShapeFault {
    ghost use Rattle.flow_shape.specs.declared.fault.ShapeFault.TheVariants as fault;

    ghost from_gives = { λ _ made. made ≡ fault.Memory };

    fn from(_: NoMemory) -> Self {
        ShapeFault::Memory
    }
}
