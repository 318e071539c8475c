// Theorems of the model, each on a function's contract.
ghost use Rattle.ssd1329.specs.Wiring.{EveryWiringShowsTheMemory};
ghost use Rattle.ssd1329.specs.Examples.{WorkedExamples};

// With the settings that it needs, a module shows its memory, however it is wired.
#[tactic(auto, using(crate::proofs::Upright::upright))]
pub fn every_wiring_shows_the_memory() -> u8
    ensures { EveryWiringShowsTheMemory }
{
    0
}

// Eight examples, worked by the rules.
pub fn worked_examples_hold() -> u8
    ensures { WorkedExamples }
{
    0
}
