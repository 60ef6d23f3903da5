// What is proved of the stacks. The function's contract names a statement of specs/.
ghost use Rattle.notes.specs.Claims.{Stacks};

// The stack of notes and that of open splits are lists.
#[tactic(auto, using(crate::proofs::Stacking::stacks))]
pub fn stacks_are_lists()
    ensures { Stacks }
{}
