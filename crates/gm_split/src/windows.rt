// Windows, and where a reach lies among them.
ghost use Rattle.std.specs.Prelude.{◌≡◌, ◌≤◌, length};
ghost use Rattle.gm_trees.specs.Tree.{IsNotPast};
ghost use Rattle.gm_split.specs.Windows.{overlaps, is_within};
ghost use Rattle.gm_split.specs.Near.{HasNear, lie_of};

use gm_trees::{Node3, Window};

/// How a reach lies to windows.
#[derive(Clone, Copy, Debug, PartialEq, Eq)]
pub(crate) enum Lie {
    /// It is inside a single one.
    Inside,
    /// It is inside none, and overlaps those whose bits are set.
    Near(u64),
}

// Whether they overlap in each dimension.
fn overlaps<const D: usize>(reach: &(Node3, Node3), window: &Window) -> bool
    ensures { result ≡ overlaps D reach.now window.now }
{
    let x = reach.0.x <= window.high.x && window.low.x <= reach.1.x;
    let y = reach.0.y <= window.high.y && window.low.y <= reach.1.y;
    let t = D != 3 || reach.0.t <= window.high.t && window.low.t <= reach.1.t;
    x && y && t
}

// Whether the reach is inside the window in each dimension.
fn is_within<const D: usize>(reach: &(Node3, Node3), window: &Window) -> bool
    ensures { result ≡ is_within D reach.now window.now }
{
    let x = window.low.x <= reach.0.x && reach.1.x <= window.high.x;
    let y = window.low.y <= reach.0.y && reach.1.y <= window.high.y;
    let t = D != 3 || window.low.t <= reach.0.t && reach.1.t <= window.high.t;
    x && y && t
}

/// How a reach lies to the windows, of which it overlaps none but those whose bits are set in
/// `seen`. No other is looked at.
pub(crate) fn lie_among<const D: usize>(
    reach: &(Node3, Node3),
    windows: &[Window],
    seen: u64,
) -> Lie
    requires rising { IsNotPast D reach.now.0 reach.now.1 }
    requires few { length windows.now ≤ 64 }
    requires seen { HasNear D windows.now reach.now seen }
    ensures { result ≡ lie_of D windows.now reach.now }
{
    let mut left = seen;
    let mut near = 0u64;
    while left != 0 {
        let at = left.trailing_zeros();
        if at as usize >= windows.len() {
            return Lie::Near(near);
        }
        let window = windows[at as usize];
        left &= !(1u64 << at);
        if overlaps::<D>(reach, &window) {
            if is_within::<D>(reach, &window) {
                return Lie::Inside;
            }
            near |= 1u64 << at;
        }
    }
    Lie::Near(near)
}
