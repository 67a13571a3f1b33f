// What a part of a side has of a window.
ghost use Rattle.std.specs.Prelude.{◌≡◌, ◌+◌, ◌*◌, ◌^◌, ◌<◌};
ghost use Rattle.windows.specs.Internal.Windows.{cut_of};

// The first place in the part, how many places, and the first in the window.
#[derive(Clone, Copy)]
pub struct Cut {
    pub from: usize,
    pub count: usize,
    pub to: usize,
}

// Of `length` places from `start` on, those in part i of parts of `side`.
#[tactic(auto, unfolding(crate::specs::Internal::Windows::cut_of))]
pub fn cut_of(start: usize, length: usize, side: usize, i: usize) -> Cut
    requires { (start + length < 2 ^ 64) × (i * side < start + length) × (start < (i + 1) * side)
        × ((i + 1) * side < 2 ^ 64) }
    ensures { result ≡ cut_of start length side i }
{
    let first = i * side;
    let top = start.max(first);
    let end = (start + length).min(first + side);
    Cut {
        from: top - first,
        count: end - top,
        to: top - start,
    }
}
