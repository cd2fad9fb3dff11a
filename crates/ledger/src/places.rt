ghost use Rattle.std.specs.Prelude.{◌≡◌, ◌+◌, min};
ghost use Rattle.std.specs.Option.{option_map};

// Days and rules count from 1, where an index counts from 0. No list of days or rules reaches the last number of 32 bits, at
// which this stops.
pub fn counted_from_one(index: Option<usize>) -> Option<u32>
    ensures { result ≡ option_map (λ i. min (i + 1) 4294967295) index }
{
    index.map(|index| index.saturating_add(1).min(u32::MAX as usize) as u32)
}
