ghost use Rattle.std.specs.Prelude.{◌≡◌};
ghost use Rattle.chains.specs.Chains.{Blocks};
ghost use Rattle.link_cases.specs.Boxes.{boxes, blocking};

use limits::link::{Limit, Link, Mark};

// A chain that rules out every plan of the boxes: the first two days are too few to leave seven for the last two.
pub fn chain_of_boxes() -> [Link; 4]
    ensures links { result ≡ blocking }
    ensures blocks { Blocks boxes result }
{
    [
        Link {
            limit: Limit::Most(1),
            from: Mark(0),
            to: Mark(2),
            allowance: 3,
        },
        Link {
            limit: Limit::Heaviest(3),
            from: Mark(2),
            to: Mark(3),
            allowance: 4,
        },
        Link {
            limit: Limit::Least(2),
            from: Mark(3),
            to: Mark(1),
            allowance: -7,
        },
        Link {
            limit: Limit::Lightest(1),
            from: Mark(1),
            to: Mark(0),
            allowance: -1,
        },
    ]
}
