ghost use Rattle.kinds.specs.Listings.{Listed};

use codes::set::CodeSet;
use entry::refusal::Refusal;
use entry::traits::Entry;

// The set of the listed codes, in any order and with repeats; refused where the kind does not know one of them.
pub(crate) fn listed<E: Entry>(codes: &[u32]) -> Result<CodeSet, Refusal>
    ensures { Listed E.known codes.now result }
{
    let mut set = CodeSet::empty();
    for code in codes {
        if !E::known(*code) {
            return Err(Refusal::UnknownCode);
        }
        set = set.with(*code);
    }
    Ok(set)
}
