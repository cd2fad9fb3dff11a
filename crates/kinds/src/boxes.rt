ghost use Rattle.std.specs.Prelude.{◌≤◌};

use entry::refusal::Refusal;
use entry::traits::Entry;

// A run of codes, from a low one to a high one: how many boxes a reviewer may have. It holds none where low is above
// high.
#[derive(Clone, Copy)]
pub struct Boxes {
    pub(crate) low: u8,
    pub(crate) high: u8,
    ghost codes: { (low ≤ 63) × (high ≤ 63) },
}

impl Boxes {
    ghost use Rattle.std.specs.Prelude.{◌≡◌};
    ghost use Rattle.entry.specs.Refusals.{told};
    ghost use Rattle.kinds.specs.Spans.{boxed, boxes_of};

    // The codes from low to high; refused where either is no code.
    pub fn new(low: u32, high: u32) -> Result<Boxes, Refusal>
        ensures { told boxed result ≡ boxes_of low high }
    {
        if low > 63 || high > 63 {
            return Err(Refusal::UnknownCode);
        }
        Ok(Boxes {
            low: low as u8,
            high: high as u8,
        })
    }
}

impl Entry for Boxes {
    ghost use Rattle.std.proofs.Common.{rules, arith};
    ghost use Rattle.entry.proofs.CellFacts.{length-cells, held-known, weigh_unknown, weigh_below};
    ghost use Rattle.kinds.specs.Codes.{any_code};
    ghost use Rattle.kinds.specs.Spans.{boxed, spans};
    ghost use Rattle.kinds.specs.Laws.{no_gap};

    const TOP: u32 = 63;

    ghost TOP = { 63 };

    ghost known = { any_code };

    ghost meaning = { boxed };

    ghost range = { Prim.search rules };

    ghost codes = { Prim.search rules };

    ghost cells = { λ x. length-cells (λ c. c) (spans x.low x.high) };

    ghost holdings = { λ x. held-known (λ c. c) (spans x.low x.high) };

    ghost unknowns = { λ x. weigh_unknown (λ c. c) (spans x.low x.high) };

    ghost weights = { λ x. weigh_below (λ c. c) (spans x.low x.high) 63 (λ c h. Prim.omega arith) };

    ghost gapless = { λ x. no_gap x.low x.high };

    fn known(code: u32) -> bool {
        code < 64
    }

    #[tactic(auto, using(crate::proofs::SpanFacts::holds_cases))]
    fn holds(&self, code: u32) -> bool {
        u32::from(self.low) <= code && code <= u32::from(self.high)
    }

    #[tactic(auto, using(crate::proofs::SpanFacts::weight_cases))]
    fn weight(&self, code: u32) -> u32 {
        if Self::known(code) { code } else { 0 }
    }

    #[tactic(auto, using(crate::proofs::SpanFacts::lightest_cases))]
    fn lightest(&self) -> u32 {
        if self.low <= self.high {
            u32::from(self.low)
        } else {
            0
        }
    }

    #[tactic(auto, using(crate::proofs::SpanFacts::heaviest_cases))]
    fn heaviest(&self) -> u32 {
        if self.low <= self.high {
            u32::from(self.high)
        } else {
            0
        }
    }

    #[tactic(auto, using(crate::proofs::SpanFacts::within))]
    fn strike(&mut self, code: u32) -> Result<(), Refusal> {
        if !Self::known(code) {
            return Err(Refusal::UnknownCode);
        }
        if !self.holds(code) {
            return Ok(());
        }
        let code = code as u8;
        if self.low == self.high {
            return Err(Refusal::OnlyCode);
        }
        if code == self.low {
            self.low += 1;
        } else if code == self.high {
            self.high -= 1;
        } else {
            return Err(Refusal::WeightGap);
        }
        Ok(())
    }

    fn grant(&mut self, code: u32) -> Result<(), Refusal> {
        if !Self::known(code) {
            return Err(Refusal::UnknownCode);
        }
        if self.holds(code) {
            return Ok(());
        }
        let code = code as u8;
        if self.high < self.low {
            *self = Boxes {
                low: code,
                high: code,
            };
        } else if code + 1 == self.low {
            self.low = code;
        } else if self.high + 1 == code {
            self.high = code;
        } else {
            return Err(Refusal::WeightGap);
        }
        Ok(())
    }
}
