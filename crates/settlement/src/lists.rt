ghost use Rattle.std.specs.Prelude.{◌≡◌, ◌-◌, ◌||◌, [], ◌∷◌, length, slice_get, is_ok, if◌then◌else◌, Some, ◌==◌, nat_lt};
ghost use Rattle.entry.specs.Refusals.{row, topmost, answered, outcome, told};
ghost use Rattle.settlement.specs.Questions.{with_front};

use entry::refusal::Refusal;
use limits::link::Link;

// Writes the roster into the front of a list that is long enough.
pub(crate) fn write(roster: &[u8], list: &mut [u8]) -> Result<(), Refusal>
    ensures answer { outcome result ≡ answered (topmost ((nat_lt (length list.old) (length roster.now), row 14) ∷ [])) tt }
    ensures written { list.new ≡ (if is_ok result then with_front roster.now list.old else list.old) }
{
    if list.len() < roster.len() {
        return Err(Refusal::WrongLength);
    }
    list[..roster.len()].copy_from_slice(roster);
    Ok(())
}

// The k-th link of a chain, counted from 1.
pub(crate) fn link_of(chain: &[Link], k: u32) -> Result<Link, Refusal>
    ensures { told (λ link. Some link) result ≡ answered (topmost (((k == 0 || nat_lt (length chain.now) k), row 13) ∷ [])) (slice_get chain.now (k - 1)) }
{
    if k == 0 || k as usize > chain.len() {
        return Err(Refusal::NoSuchLink);
    }
    Ok(chain[k as usize - 1])
}
