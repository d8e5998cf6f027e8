// The rules of the store: what every call answers and changes, and what every block that it sends holds.
#![tactic(auto)]

ghost use Rattle.rules.specs.Allowed.{CallsAreChanges};
ghost use Rattle.rules.specs.Busy.{BusyExample};
ghost use Rattle.rules.specs.Effects.{CallsInPlainWords};
ghost use Rattle.rules.specs.Example.{WorkedExample};
ghost use Rattle.rules.specs.Kept.{StatesStayCoherent};
ghost use Rattle.rules.specs.Landings.{LandingsAgree};
ghost use Rattle.rules.specs.Ordering.{ImagesAreOrdered};

// The worked example, by computing the rules.
#[tactic(auto, using(crate::proofs::Example::worked_example))]
pub fn worked_example()
    ensures { WorkedExample }
{}

// A second example, with calls made while writes wait, and attaches to what is left.
#[tactic(auto, using(crate::proofs::Example::busy_example))]
pub fn busy_example()
    ensures { BusyExample }
{}

// Every call is a list of primitive changes that may be made; a refused one is the empty list.
pub fn calls_are_changes()
    ensures { CallsAreChanges }
{}

// An accepted attach begins in a state in which every name leads to a file, and every change that may be made and every call keeps it so.
#[tactic(auto, using(crate::proofs::Kept::states_stay_coherent))]
pub fn states_stay_coherent()
    ensures { StatesStayCoherent }
{}

// The ordering rules of soft updates, of every image and of everything that is free.
pub fn images_are_ordered()
    ensures { ImagesAreOrdered }
{}

// Standing media are what power cuts leave, and collects are landings, by the device's own meaning.
#[tactic(auto, using(crate::proofs::Cuts::landings_agree))]
pub fn landings_agree()
    ensures { LandingsAgree }
{}

// What a rename and a trim leave, in plain words.
#[tactic(auto, using(crate::proofs::Effects::calls_in_plain_words))]
pub fn calls_in_plain_words()
    ensures { CallsInPlainWords }
{}
