ghost use Rattle.std.specs.Prelude.{◌≡◌, ℕ, ◌<◌, ◌≤◌, Bool, true, false, length};
ghost use Rattle.entry.specs.Cells.{Meaning, held, weigh, NoGap};
ghost use Rattle.entry.specs.Weights.{lightest, heaviest, Lightest, Heaviest};
ghost use Rattle.entry.specs.Edits.{Strikes, Grants};

use crate::refusal::Refusal;

// A kind of entry. An entry says which codes one day of a plan may have, and what each of the kind's codes weighs.
// The layers above know of a kind only the members, laws and methods below.
pub trait Entry: Copy {
    // The kind's top: no code of the kind weighs more.
    const TOP: u32;

    // The same number, for clauses.
    ghost TOP: { ℕ };

    // The codes that the kind has.
    ghost known: { ℕ → Bool };

    // For each code its weight and whether it is held.
    ghost meaning: { Self → Meaning };

    fn known(code: u32) -> bool
        ensures { result ≡ known code };

    fn holds(&self, code: u32) -> bool
        ensures { result ≡ held (meaning self.now) code };

    fn weight(&self, code: u32) -> u32
        ensures { result ≡ weigh (meaning self.now) code };

    // What the lightest held code weighs; 0 for an entry without codes.
    fn lightest(&self) -> u32
        ensures equals { result ≡ lightest (meaning self.now) }
        ensures means { Lightest (meaning self.now) result };

    // What the heaviest held code weighs; 0 for an entry without codes.
    fn heaviest(&self) -> u32
        ensures equals { result ≡ heaviest (meaning self.now) }
        ensures means { Heaviest (meaning self.now) result };

    // Takes one code out, and changes nothing else. A refusal leaves the very same entry.
    fn strike(&mut self, code: u32) -> Result<(), Refusal>
        ensures { Strikes meaning known code self.old result self.new };

    // Puts one code in, and changes nothing else. A refusal leaves the very same entry.
    fn grant(&mut self, code: u32) -> Result<(), Refusal>
        ensures { Grants meaning known code self.old result self.new };

    // Top lies from 1 to 63, a known code is below 64, and a meaning has 64 cells.
    ghost range: { (1 ≤ TOP) × (TOP ≤ 63) };

    ghost codes: { (c : ℕ) → known c ≡ true → c < 64 };

    ghost cells: { (x : Self) → length (meaning x) ≡ 64 };

    // Held codes are known; an unknown code weighs nothing, and no code more than top.
    ghost holdings: { (x : Self) (c : ℕ) → held (meaning x) c ≡ true → known c ≡ true };

    ghost unknowns: { (x : Self) (c : ℕ) → known c ≡ false → weigh (meaning x) c ≡ 0 };

    ghost weights: { (x : Self) (c : ℕ) → weigh (meaning x) c ≤ TOP };

    // The no-gap law: settling turns spans of weights into held codes by it.
    ghost gapless: { (x : Self) → NoGap (meaning x) };
}
