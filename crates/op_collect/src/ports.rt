ghost use Rattle.std.specs.Prelude.{◌≤◌, length, get_or, false};
ghost use Rattle.op_collect.specs.Standing.{IsFirst};

/// The first port that hasn't ended, of those from one on and below another.
pub fn first_open(over: &[bool], from: u32, to: u32) -> Option<u32>
    requires { to ≤ length over.now }
    ensures { IsFirst (λ i. get_or over.now i false) from to result }
{
    for port in from..to {
        if !over[port as usize] {
            return Some(port);
        }
    }
    None
}
