ghost use Rattle.std.specs.Prelude.{◌≡◌, ℕ, ◌+◌, ◌≤◌, All, Contains, length, take};
ghost use Rattle.limits.specs.Systems.{days, Within, marks};
ghost use Rattle.limits.specs.declared.link.Link.{Link};
ghost use Rattle.chains.specs.Chains.{Leads, Blocks};
ghost use Rattle.chains.specs.Layers.{Makes, Layered, FallsFrom, InRange};
ghost use Rattle.chains.specs.Walks.{Descends, ClosedPart};

use crate::layers::{Layer, Layers};
use bounded::Bounded;
use limits::link::{Link, NO_LINK};
use limits::system::{MARKS, System};

// Walks back from a mark that falls in the last layer. Some mark comes twice on the way, and the links between form a closed
// chain.
pub(crate) fn blocking_chain(system: &System, layers: &Layers, end: usize) -> Bounded<Link, MARKS>
    requires layered { Layered system.now.links (marks system.now) layers.now }
    requires falls { FallsFrom layers.now (days system.now) end }
    ensures { Blocks system.now result }
{
    let marks = system.days() + 1;
    let steps = walk_back(system.links(), layers, marks, end);
    let mut chain = Bounded::new(NO_LINK);
    for step in closed_part(&steps[..marks]) {
        let _ = chain.push(*step);
    }
    chain
}

// The links by which the mark fell, one into each layer.
fn walk_back(links: &[Link], layers: &Layers, marks: usize, end: usize) -> [Link; MARKS]
    requires within { All (Within 128) links.now }
    requires few { marks ≤ 129 }
    requires layered { Layered links.now marks layers.now }
    requires falls { (k : ℕ) → k + 1 ≡ marks → FallsFrom layers.now k end }
    ensures leads { (start : ℕ) × Leads start (take marks result) end }
    ensures descends { Descends links.now layers.now 0 (take marks result) }
{
    let mut steps = [NO_LINK; MARKS];
    let mut mark = end;
    for k in (0..marks).rev() {
        steps[k] = step_into(links, &layers[k], mark, layers[k + 1][mark]);
        mark = steps[k].from.index();
    }
    steps
}

// The link that makes the mark's total from the layer.
fn step_into(links: &[Link], layer: &Layer, mark: usize, made: i32) -> Link
    requires within { All (Within 128) links.now }
    requires range { InRange 128 layer.now }
    requires made { (l : Link) × Contains links.now l × Makes layer.now mark made l }
    ensures { Contains links.now result × Makes layer.now mark made result }
{
    for link in links {
        if link.to.index() == mark && layer[link.from.index()] + i32::from(link.allowance) == made {
            return *link;
        }
    }
    unreachable!()
}

// The first links that end where they started.
fn closed_part(steps: &[Link]) -> &[Link]
    requires leads { (start : ℕ) × (end : ℕ) × Leads start steps.now end }
    requires crowded { (days : ℕ) × All (Within days) steps.now × (length steps.now ≡ days + 1) }
    ensures { ClosedPart steps.now result.now }
{
    for end in 0..steps.len() {
        for start in 0..=end {
            if steps[start].from == steps[end].to {
                return &steps[start..=end];
            }
        }
    }
    unreachable!()
}
