use crate::tell;
use kinds::collection::Collection;
use ledger::book::Book;
use papers::Papers;
use roster::check;
use roster::finding::Finding;
use std::io;

pub(crate) fn print_codes(rt: &HostRuntime, codes: &[u8]) -> io::Result<()> {
    for code in codes {
        match Papers::try_from(u32::from(*code)) {
            Ok(papers) => print!(rt; " {papers}")?,
            Err(unknown) => print!(rt; " {}", unknown.code)?,
        }
    }
    println!(rt; "")
}

pub(crate) fn tell_check(
    rt: &HostRuntime,
    days: &[Collection],
    book: &Book,
    name: &str,
    roster: &[u8],
) -> io::Result<()> {
    print!(rt; "  {name}: ")?;
    match check(days, book, roster) {
        Err(refusal) => tell(rt, refusal),
        Ok(Finding::Lawful) => println!(rt; "lawful."),
        Ok(Finding::NotHeld { day }) => println!(rt; "day {day} has what is not open then."),
        Ok(
            Finding::Broken {
                rule,
                first,
                last,
                stretch,
            },
        ) => {
            print!(rt; "breaks rule {rule} from day {first} to day {last}:")?;
            print_codes(rt, stretch)
        }
    }
}
