//! Laws. Each is the contract of a function that does nothing.

ghost use Rattle.till_model.specs.Laws.{
  ActsOnceInOrder,
  ActsOnceOverStops,
  AnswersWereServed,
  FromThePressToTheDisk,
  NumberedAreOwn,
  RisingComeInOrder,
};
ghost use Rattle.till_model.specs.Settled.{SettledForGood};
ghost use Rattle.till_model.specs.RegisterLaws.{RegisterIsTheLastRent, RentsStayOfTheirCopies, ReturnsTookBack};

/// Each entry of a till acts at most once, and entries act in the order of entering. An entry whose recorded reply is
/// 200 has acted with that reply. This holds for any history of the branch, whatever else the branch gets, if the
/// branch keeps nothing under the till's mark at first.
pub fn entries_act_once_in_order()
    ensures { ActsOnceInOrder }
{}

/// The same law over any number of stops of the chain. It covers every entry that acted, also one without a response.
pub fn entries_act_once_over_stops()
    ensures { ActsOnceOverStops }
{}

/// An answer of the chain to a command of a branch is the branch's reply to that command. Answers with status 503 don't
/// count: with them the chain reports that it lacked memory, room or its store.
pub fn answers_were_served()
    ensures { AnswersWereServed }
{}

/// If moments rise from entry to entry, entries come in order, also when commands arrive late.
pub fn rising_moments_come_in_order()
    ensures { RisingComeInOrder }
{}

/// Suppose that the n-th entry's key is the till's mark with the number n, and that its moment is later than all
/// before. Then all keys have the till's mark, no two entries share a key, and moments rise.
pub fn numbered_entries_are_own()
    ensures { NumberedAreOwn }
{}

/// The till's book and the chain's books agree on each entry, over any number of stops: from the key press to the
/// disk, once. The premise on others is that nobody else uses the mark.
pub fn from_the_press_to_the_disk()
    ensures { FromThePressToTheDisk }
{}

/// A settlement is permanent. An entry whose retry got 200 has acted once, with exactly that reply. An entry whose
/// retry got `moment_back` has not acted and never will, also when a command arrives late.
pub fn settled_entries_stay_settled()
    ensures { SettledForGood }
{}

/// The register has a rental for a copy exactly if two things hold. The copy's last accepted rent made that rental, and
/// no later entry is an accepted return of that rental.
pub fn the_register_is_the_last_rent()
    ensures { RegisterIsTheLastRent }
{}

/// Suppose that the register had a rental for a copy when a return of that rental was entered, and the return was
/// accepted. Then the return took that copy back: an earlier accepted rent of the copy was answered with that
/// rental, and after the return the register lacks that rental.
pub fn returns_by_copy_took_back()
    ensures { ReturnsTookBack }
{}

/// The reply to an accepted rent has the number of a rental of the rented copy. That rental stays one of that copy,
/// whatever the branch gets later.
pub fn rents_stay_of_their_copies()
    ensures { RentsStayOfTheirCopies }
{}
