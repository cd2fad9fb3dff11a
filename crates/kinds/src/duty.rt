ghost use Rattle.std.specs.Prelude.{◌≡◌};
ghost use Rattle.std.proofs.Common.{◌∙◌, arith, rules};
ghost use Rattle.std.proofs.lemmas.Bool.Decides.{nat_tests};
ghost use Rattle.codes.specs.Members.{members};
ghost use Rattle.entry.specs.Refusals.{told};
ghost use Rattle.entry.proofs.CellFacts.{length-cells, weigh-cells, weigh_below, cells-gapless};
ghost use Rattle.kinds.specs.Duties.{duty_code, duties, duty_of, duty_weight, either};
ghost use Rattle.kinds.specs.Listings.{all_known};
ghost use Rattle.kinds.specs.Laws.{duty_light, held-duty_code};

use crate::listing::listed;
use codes::set::CodeSet;
use entry::refusal::Refusal;
use entry::traits::Entry;

// Whether a reviewer is off duty, on duty, or may be either: code 0 is off and weighs nothing, code 1 is on and
// weighs 1.
#[derive(Clone, Copy)]
pub struct Duty {
    pub(crate) off: bool,
    pub(crate) on: bool,
}

impl Duty {
    // The listed codes; refused where one is neither 0 nor 1.
    #[tactic(auto, using(crate::proofs::BuildFacts::duty_again))]
    pub fn new(codes: &[u32]) -> Result<Duty, Refusal>
        ensures { told duties result ≡ duty_of codes.now }
    {
        Duty::from_set(listed::<Duty>(codes)?)
    }

    // The codes of a set, or the same refusal.
    #[tactic(auto, using(crate::proofs::DutyFacts::built))]
    pub fn from_set(codes: CodeSet) -> Result<Duty, Refusal>
        ensures { told duties result ≡ duty_of (members codes) }
    {
        if !Duty::known_alone(codes) {
            return Err(Refusal::UnknownCode);
        }
        Ok(Duty {
            off: codes.contains(0),
            on: codes.contains(1),
        })
    }

    // The set has no other codes than 0 and 1.
    fn known_alone(codes: CodeSet) -> bool
        ensures { result ≡ all_known duty_code (members codes) }
    {
        codes.without(0).without(1).is_empty()
    }
}

impl Entry for Duty {
    const TOP: u32 = 1;

    ghost TOP = { 1 };

    ghost known = { duty_code };

    ghost meaning = { duties };

    ghost range = { Prim.search rules };

    ghost codes = { Prim.search rules };

    ghost cells = { λ x. length-cells duty_weight (either x.off x.on) };

    ghost holdings = { λ x. held-duty_code x.off x.on };

    ghost unknowns = { λ x c u. weigh-cells duty_weight (either x.off x.on) c ∙ Prim.grind (arith, nat_tests) };

    ghost weights = { λ x. weigh_below duty_weight (either x.off x.on) 1 (λ c h. duty_light c) };

    ghost gapless = { λ x. cells-gapless duty_weight (either x.off x.on) duty_light };

    fn known(code: u32) -> bool {
        code < 2
    }

    #[tactic(auto, using(crate::proofs::DutyFacts::holds_cases))]
    fn holds(&self, code: u32) -> bool {
        match code {
            0 => self.off,
            1 => self.on,
            _ => false,
        }
    }

    #[tactic(auto, using(crate::proofs::DutyFacts::weighs_one))]
    fn weight(&self, code: u32) -> u32 {
        u32::from(code == 1)
    }

    #[tactic(auto, using(crate::proofs::DutyFacts::lightest_cases))]
    fn lightest(&self) -> u32 {
        if self.off { 0 } else { self.heaviest() }
    }

    #[tactic(auto, using(crate::proofs::DutyFacts::heaviest_cases))]
    fn heaviest(&self) -> u32 {
        u32::from(self.on)
    }

    fn strike(&mut self, code: u32) -> Result<(), Refusal> {
        match code {
            0 if self.off && !self.on => return Err(Refusal::OnlyCode),
            1 if self.on && !self.off => return Err(Refusal::OnlyCode),
            0 => self.off = false,
            1 => self.on = false,
            _ => return Err(Refusal::UnknownCode),
        }
        Ok(())
    }

    fn grant(&mut self, code: u32) -> Result<(), Refusal> {
        match code {
            0 => self.off = true,
            1 => self.on = true,
            _ => return Err(Refusal::UnknownCode),
        }
        Ok(())
    }
}
