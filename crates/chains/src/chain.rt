ghost use Rattle.std.specs.Prelude.{◌≡◌};
ghost use Rattle.chains.specs.Chains.{sum};

use bounded::Bounded;
use limits::link::Link;
use limits::system::MARKS;

// What the links of a chain allow together.
pub fn sum(chain: &Bounded<Link, MARKS>) -> i32
    ensures { result ≡ sum chain.now }
{
    let mut total = 0;
    for link in chain.as_slice() {
        total += i32::from(link.allowance);
    }
    total
}
