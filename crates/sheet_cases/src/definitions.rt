ghost use Rattle.std.specs.Prelude.{◌≡◌, map};
ghost use Rattle.sheet_cases.specs.Forms.{first_forms, later_forms};

// A line of each form that the first line may have, as the definition writes it.
pub fn first_lines() -> [&'static str; 3]
    ensures { map (λ line. line.now) result ≡ first_forms }
{
    [
        "(sheet duty 7 (codes 0 1))",
        "(sheet collection 10 (codes 4 7 9) (counts 9))",
        "(sheet boxes 128 (span 0 63))",
    ]
}

// A line of each form that a later line may have.
pub fn later_lines() -> [&'static str; 6]
    ensures { map (λ line. line.now) result ≡ later_forms }
{
    [
        "(rule (days 1 12) (count 0 8064))",
        "(slide 5 (count 2 3))",
        "(withdraw 512)",
        "(strike 2 34)",
        "(grant 128 0)",
        "(settle)",
    ]
}
