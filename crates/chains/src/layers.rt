ghost use Rattle.std.specs.Prelude.{◌≡◌, ℕ, ◌≤ℤ◌, ◌<ℤ◌, All, MatchOption};
ghost use Rattle.chains.specs.Layers.{layer_of, Lowers, Layered, FallsFrom, InRange};
ghost use Rattle.limits.specs.Systems.{Solvable, days, Within, at_mark, marks};

use limits::link::Link;
use limits::system::{MARKS, System};

// A total for each mark: in the first layer where each day weighs its lightest, in each later one the total of the layer
// before, or what a link into the mark makes of that layer, whichever is least.
pub(crate) type Layer = [i32; MARKS];

// One layer for each number of links, from none to as many as there are marks.
pub(crate) type Layers = [Layer; MARKS + 1];

// The first layer. Unless a day's lightest is above its heaviest, no link of a day lowers these totals.
pub(crate) fn lightest_totals(system: &System) -> Layer
    ensures totals { (mark : ℕ) → at_mark result mark ≡ at_mark system.now.lightest mark }
    ensures range { InRange 0 result }
{
    let mut layer = [0; MARKS];
    let totals = system.lightest();
    for mark in 0..totals.len() {
        layer[mark] = i32::from(totals[mark]);
    }
    layer
}

// Fills in one layer after another, until one repeats. If none does, the answer is a mark that falls even in the last.
pub(crate) fn falling_mark(system: &System, layers: &mut Layers) -> Option<usize>
    requires { InRange 0 (layer_of layers.old 0) }
    ensures { MatchOption result (Solvable system.now) (λ mark. Layered system.now.links (marks system.now) layers.new × FallsFrom layers.new (days system.now) mark) }
{
    let marks = system.days() + 1;
    let mut fallen = 0;
    for k in 0..marks {
        let next = lowered(system.links(), &layers[k]);
        fallen = first_fallen(&layers[k], &next)?;
        layers[k + 1] = next;
    }
    Some(fallen)
}

// The layer after this one.
fn lowered(links: &[Link], layer: &Layer) -> Layer
    requires within { All (Within 128) links.now }
    requires range { InRange 128 layer.now }
    ensures { Lowers links.now layer.now result }
{
    let mut next = *layer;
    for link in links {
        let to = link.to.index();
        let made = layer[link.from.index()] + i32::from(link.allowance);
        next[to] = next[to].min(made);
    }
    next
}

// The first mark that is lower in the next layer.
fn first_fallen(layer: &Layer, next: &Layer) -> Option<usize>
    ensures { MatchOption result ((mark : ℕ) → at_mark layer.now mark ≤ℤ at_mark next.now mark) (λ mark. at_mark next.now mark <ℤ at_mark layer.now mark) }
{
    layer
        .iter()
        .zip(next)
        .position(|(before, after)| after < before)
}
