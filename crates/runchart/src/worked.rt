ghost use Rattle.std.specs.Prelude.{◌≡◌};
ghost use Rattle.runchart.specs.Worked.{WorkedExamples};

// How many worked examples the definitions are shown to give.
pub fn worked_examples() -> u8
    ensures facts { WorkedExamples }
    ensures count { result ≡ 14 }
{
    14
}
