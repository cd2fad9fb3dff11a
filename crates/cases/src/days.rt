use entry::refusal::Refusal;
use kinds::duty::Duty;

// On duty on days 1 and 2, off on day 6, and on or off on the other days.
pub(crate) fn seven_days() -> Result<[Duty; 7], Refusal> {
    let either = Duty::new(&[0, 1])?;
    let on = Duty::new(&[1])?;
    let off = Duty::new(&[0])?;
    Ok([on, on, either, either, either, off, either])
}
