ghost use Rattle.std.specs.Prelude.{◌≡◌, map};
ghost use Rattle.carry_cases.specs.Lines.{answer_forms, refused_by};

// A line of each form of answer, as the definition writes it.
pub fn answer_lines() -> [&'static str; 14]
    ensures { map (λ line. line.now) result ≡ answer_forms }
{
    [
        "(duty 0)\n",
        "(collection 10)\n",
        "(boxes 128)\n",
        "(rule 512)\n",
        "(slide 1 3)\n",
        "(slide none)\n",
        "(done)\n",
        "(blocked)\n",
        "(refused 2)\n",
        "(refused 16)\n",
        "(fault bytes 2 9)\n",
        "(fault form 1 16385)\n",
        "(agreed (lean 0 5) (full 63 5) (keep (1 0 63) (2 5)))\n",
        "(agreed (lean) (full) (keep))\n",
    ]
}

// The rows by which first lines are refused, and 0 for those that open a plan.
pub fn first_refusals() -> [u32; 11]
    ensures { result ≡ refused_by }
{
    [1, 1, 1, 9, 9, 9, 9, 9, 0, 0, 0]
}
