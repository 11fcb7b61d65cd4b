// Truth in finite models, as theorems: what can be derived is valid, and where nothing is assumed falsehood cannot be derived.
ghost use Rattle.hol.specs.Says.{Sound, Consistent};

// what can be derived is valid in every finite model that satisfies the axioms
pub fn sound()
    ensures { Sound }
{}

// where nothing is assumed, falsehood cannot be derived
pub fn consistent()
    ensures { Consistent }
{}
