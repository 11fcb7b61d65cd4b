// The theorems about the definitions: each is the contract of a function, and is proved with it.

ghost use Rattle.hol.specs.Says.{StepSound, AcceptedGood, Typed, HypsOnce};

// What a step finds can be derived, where what was found before can be.
pub fn step_sound()
    ensures { StepSound }
{}

// What is accepted is a theory in which every theorem can be derived from what stands before it.
pub fn accepted_good()
    ensures { AcceptedGood }
{}

// What can be derived has type bool, and so has what it assumes.
pub fn typed()
    ensures { Typed }
{}

// A step's sequent has each assumption once, where those that it can use have.
pub fn hyps_once()
    ensures { HypsOnce }
{}
