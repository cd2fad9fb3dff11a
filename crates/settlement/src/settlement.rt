ghost use Rattle.std.specs.Prelude.{◌≡◌, ℕ, ◌-◌, ◌≤◌, true, ◌||◌, [], ◌∷◌, ◌++◌, length, slice_get, is_ok, if◌then◌else◌, IsTrue, ◌↔◌, Some, None, IfOk, IfErr, ◌==◌, nat_lt};
ghost use Rattle.entry.specs.Refusals.{row, row_of, topmost, answered, outcome, told};
ghost use Rattle.ledger.specs.declared.call.Call.TheVariants.{Settle};
ghost use Rattle.ledger.specs.Ledgers.{rows};

use crate::lists::{link_of, write};
use crate::verdict::{Agreement, Verdict};
use entry::refusal::Refusal;
use entry::traits::Entry;
use ledger::book::Book;
use limits::link::Link;
use std::marker::Model;

// What was found of a plan. It keeps both loans: while it is asked, entries and book stay as they were when it was made.
#[derive(Drop)]
pub struct Settlement<'e, 'b, E: Entry> {
    pub(crate) entries: &'e [E],
    pub(crate) book: &'b Book,
    pub(crate) verdict: Verdict,
}

// Clauses see the plan that entries and book mean, and the verdict. It is true of the plan.
impl<'e, 'b, E: Entry> Model for Settlement<'e, 'b, E> {
    ghost use Rattle.std.specs.Prelude.{map};
    ghost use Rattle.ledger.specs.Ledgers.{ledger};
    ghost use Rattle.settlement.specs.Settlements.{Settlement as Seen, Settles};

    ghost Value = { Seen };

    ghost view = { λ s. record { days = map E.meaning s.entries.now; rules = s.book.now; verdict = s.verdict } };

    ghost invariant = { λ s. Settles (ledger E.Entry s.entries.now s.book.now) s.verdict };
}

impl<'e, 'b, E: Entry> Settlement<'e, 'b, E> {
    ghost use Rattle.settlement.specs.declared.verdict.Verdict.TheVariants.{Agreed};
    ghost use Rattle.settlement.specs.Questions.{possible_reply, roster_reply, link_reply, above, with_front};
    ghost use Rattle.settlement.specs.Settlements.{plan, is_blocked, refusal, possible, lean, full, chain, CanHave, Leanest, Fullest, SoundChain, Settles};

    // Agreed, blocked or refused, with all that the questions below are answered from.
    pub fn verdict(&self) -> &Verdict
        ensures verdict { result.now ≡ self.now.verdict }
        ensures settles { Settles (plan E.Entry self.now) self.now.verdict }
    {
        &self.verdict
    }

    // Whether some lawful roster has the code on the day.
    pub fn possible(&self, day: u32, code: u32) -> Result<bool, Refusal>
        ensures answer { outcome result ≡ possible_reply (plan E.Entry self.now) self.now.verdict day code }
        ensures means { IfOk result (λ yes. IsTrue yes ↔ CanHave (plan E.Entry self.now) day code) }
    {
        self.refused_above(Refusal::NoSuchDay)?;
        if day == 0 || day as usize > self.entries.len() {
            return Err(Refusal::NoSuchDay);
        }
        self.refused_above(Refusal::UnknownCode)?;
        if !E::known(code) {
            return Err(Refusal::UnknownCode);
        }
        Ok(self.allows(day, code))
    }

    // Writes the leanest roster into the front of the list.
    pub fn lean(&self, list: &mut [u8]) -> Result<(), Refusal>
        ensures answer { outcome result ≡ roster_reply (plan E.Entry self.now) self.now.verdict (length list.old) }
        ensures written { list.new ≡ (if is_ok result then with_front (lean self.now.verdict) list.old else list.old) }
        ensures means { is_ok result ≡ true → Leanest (plan E.Entry self.now) (lean self.now.verdict) }
    {
        write(self.agreement()?.lean.as_slice(), list)
    }

    // Writes the fullest roster into the front of the list.
    pub fn full(&self, list: &mut [u8]) -> Result<(), Refusal>
        ensures answer { outcome result ≡ roster_reply (plan E.Entry self.now) self.now.verdict (length list.old) }
        ensures written { list.new ≡ (if is_ok result then with_front (full self.now.verdict) list.old else list.old) }
        ensures means { is_ok result ≡ true → Fullest (plan E.Entry self.now) (full self.now.verdict) }
    {
        write(self.agreement()?.full.as_slice(), list)
    }

    // The k-th link of the chain that shows why the plan is blocked, counted from 1.
    pub fn link(&self, k: u32) -> Result<Link, Refusal>
        ensures answer { told (λ link. Some link) result ≡ link_reply (plan E.Entry self.now) self.now.verdict k }
        ensures means { is_ok result ≡ true → SoundChain (plan E.Entry self.now) (chain self.now.verdict) }
    {
        link_of(self.chain()?, k)
    }

    // Declines where the settlement itself is refused, by a row above the given one.
    fn refused_above(&self, row: Refusal) -> Result<(), Refusal>
        ensures settles { Settles (plan E.Entry self.now) self.now.verdict }
        ensures answer { outcome result ≡ answered (above (row_of row).0 (refusal self.now.verdict)) tt }
    {
        match self.verdict {
            Verdict::Refused(refusal) if refusal.number() < row.number() => Err(refusal),
            _ => Ok(()),
        }
    }

    // Whether the verdict has the code among the day's possible ones. Days count from 1.
    fn allows(&self, day: u32, code: u32) -> bool
        requires { 1 ≤ day }
        ensures { result ≡ possible self.now.verdict day code }
    {
        match &self.verdict {
            Verdict::Agreed(agreement) => {
                let sets = agreement.possible.as_slice();
                sets.get(day as usize - 1)
                    .is_some_and(|set| set.contains(code))
            }
            Verdict::Blocked(_) | Verdict::Refused(_) => false,
        }
    }

    // What an agreed plan allows.
    fn agreement(&self) -> Result<&Agreement, Refusal>
        ensures settles { Settles (plan E.Entry self.now) self.now.verdict }
        ensures agreed { IfOk result (λ a. self.now.verdict ≡ Agreed a.now) }
        ensures refused { IfErr result (λ e. topmost (rows (plan E.Entry self.now) Settle ++ (is_blocked self.now.verdict, row 12) ∷ []) ≡ Some (row_of e)) }
    {
        match &self.verdict {
            Verdict::Agreed(agreement) => Ok(agreement),
            Verdict::Blocked(_) => Err(Refusal::BlockedPlan),
            Verdict::Refused(refusal) => Err(*refusal),
        }
    }

    // The chain of a plan that is not refused. An agreed one has none.
    fn chain(&self) -> Result<&[Link], Refusal>
        ensures settles { Settles (plan E.Entry self.now) self.now.verdict }
        ensures links { IfOk result (λ links. links.now ≡ chain self.now.verdict) }
        ensures taken { IfOk result (λ _. topmost (rows (plan E.Entry self.now) Settle) ≡ None) }
        ensures refused { IfErr result (λ e. topmost (rows (plan E.Entry self.now) Settle) ≡ Some (row_of e)) }
    {
        match &self.verdict {
            Verdict::Agreed(_) => Ok(&[]),
            Verdict::Blocked(chain) => Ok(chain.as_slice()),
            Verdict::Refused(refusal) => Err(*refusal),
        }
    }
}
