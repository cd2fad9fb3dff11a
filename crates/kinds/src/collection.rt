ghost use Rattle.std.specs.Prelude.{◌≡◌, Ok};
ghost use Rattle.std.proofs.Common.{rules};
ghost use Rattle.codes.specs.Members.{member, members};
ghost use Rattle.entry.specs.Refusals.{told};
ghost use Rattle.entry.proofs.CellFacts.{length-cells, held-known, weigh_unknown, weigh_below, cells-gapless};
ghost use Rattle.kinds.specs.Codes.{any_code};
ghost use Rattle.kinds.specs.Collections.{collected, collection_of, weight_in};
ghost use Rattle.kinds.specs.Laws.{counted_light};

use crate::listing::listed;
use codes::set::CodeSet;
use entry::refusal::Refusal;
use entry::traits::Entry;

// The collections that a reviewer may open, and those of them that count: a counted code weighs 1, any other 0.
#[derive(Clone, Copy)]
pub struct Collection {
    pub(crate) held: CodeSet,
    pub(crate) counted: CodeSet,
}

impl Collection {
    // The listed codes, of which those in `counts` count; refused where either list has a number that is no code.
    #[tactic(auto, using(crate::proofs::BuildFacts::collection_again))]
    pub fn new(codes: &[u32], counts: &[u32]) -> Result<Collection, Refusal>
        ensures { told collected result ≡ collection_of codes.now counts.now }
    {
        let held = listed::<Collection>(codes)?;
        let counted = listed::<Collection>(counts)?;
        Ok(Collection::from_sets(held, counted))
    }

    // The codes in `held`, of which those in `counted` count: no set has a number that is no code.
    #[tactic(auto, using(crate::proofs::BuildFacts::from_two_sets))]
    pub fn from_sets(held: CodeSet, counted: CodeSet) -> Collection
        ensures { Ok (collected result) ≡ collection_of (members held) (members counted) }
    {
        Collection { held, counted }
    }
}

impl Entry for Collection {
    const TOP: u32 = 1;

    ghost TOP = { 1 };

    ghost known = { any_code };

    ghost meaning = { collected };

    ghost range = { Prim.search rules };

    ghost codes = { Prim.search rules };

    ghost cells = { λ x. length-cells (weight_in (member x.counted)) (member x.held) };

    ghost holdings = { λ x. held-known (weight_in (member x.counted)) (member x.held) };

    ghost unknowns = { λ x. weigh_unknown (weight_in (member x.counted)) (member x.held) };

    ghost weights = { λ x. weigh_below (weight_in (member x.counted)) (member x.held) 1 (λ c h. counted_light (member x.counted c)) };

    ghost gapless = { λ x. cells-gapless (weight_in (member x.counted)) (member x.held) (λ c. counted_light (member x.counted c)) };

    fn known(code: u32) -> bool {
        code < 64
    }

    #[tactic(auto, using(crate::proofs::CollectionFacts::says_held))]
    fn holds(&self, code: u32) -> bool {
        self.held.contains(code)
    }

    #[tactic(auto, using(crate::proofs::CollectionFacts::says_counted))]
    fn weight(&self, code: u32) -> u32 {
        u32::from(self.counted.contains(code))
    }

    // Where all that is held counts, or nothing is held, the heaviest is the lightest.
    fn lightest(&self) -> u32 {
        let free = self.held - self.counted;
        if free.is_empty() { self.heaviest() } else { 0 }
    }

    fn heaviest(&self) -> u32 {
        let counting = self.held & self.counted;
        u32::from(!counting.is_empty())
    }

    fn strike(&mut self, code: u32) -> Result<(), Refusal> {
        if !Self::known(code) {
            return Err(Refusal::UnknownCode);
        }
        let rest = self.held.without(code);
        if rest.is_empty() && self.held.contains(code) {
            return Err(Refusal::OnlyCode);
        }
        self.held = rest;
        Ok(())
    }

    fn grant(&mut self, code: u32) -> Result<(), Refusal> {
        if !Self::known(code) {
            return Err(Refusal::UnknownCode);
        }
        self.held = self.held.with(code);
        Ok(())
    }
}
