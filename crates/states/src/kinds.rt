ghost use Rattle.std.specs.Prelude.{◌≡◌};
ghost use Rattle.model.specs.States.{deeperb, depth_of, kind_of, power_downb};

use model::states::{Kind, Platform};

// The kind of a state: the Rust's `power_state_type`.
pub fn kind(p: Platform, state: u8) -> Kind
    ensures { result ≡ kind_of p state }
{
    if state == 0 {
        return Kind::Running;
    }
    if state < p.down {
        return Kind::Retention;
    }
    Kind::PowerDown
}

// A kind's place in the order of kinds.
pub fn depth(k: Kind) -> u8
    ensures { result ≡ depth_of k }
{
    k as u8
}

// Is kind a deeper than kind b? By `depth`, as the definition `deeperb` has it.
pub fn deeper(a: Kind, b: Kind) -> bool
    ensures { result ≡ deeperb a b }
{
    depth(b) < depth(a)
}

// Is the kind power-down?
pub fn power_down(k: Kind) -> bool
    ensures { result ≡ power_downb k }
{
    k == Kind::PowerDown
}
