//! Laws, each on a function with nothing to do.

ghost use Rattle.shop_model.specs.Resends.{KeptRowsAreKept, RunsResend};
ghost use Rattle.shop_model.specs.Stops.{EachActsOnce, LivesAreOneHistory, LivesFollow, ResentFirst};
ghost use Rattle.shop_model.specs.Migration.{MigratedIsSound, SoundWithoutTerms, MigratedKeepsBalances};
ghost use Rattle.shop_model.specs.Figures.{BalancesFollowActs, CopiesAreOfImports, HoldersAreTold, OverdueIsOut, SalesAddUp, StockIsSplit};
ghost use Rattle.shop_model.specs.Reentered.{AcceptedAreKept, BooksAreOfAccepted, LostIsBroughtBack};
ghost use Rattle.shop_model.specs.Interleaved.{AlikeStayAlike, AnyOrderTellsAlike, BranchesCommute, LostIsBroughtBackAlike, OfficeCommutes, OrderIsWithinViews, OrderMayDiffer};
ghost use Rattle.shop_model.specs.Laws.{
  BranchesAreAlone,
  BranchesAreIsolated,
  CallersAreKnown,
  CopiesAreInOnePlace,
  OfficeResentIsAgain,
  OpeningBooksAreSound,
  OpeningIsSound,
  OrderTellsNothing,
  RefusalsAreInOrder,
  RepeatsChangeNothing,
  ResentIsAgain,
  SoundBooksAreInCustody,
  EmptyIsSound,
  StaySound,
  StaySoundWithin,
};

/// Each branch gets the replies that its own machine gives on its view, whatever others ask.
#[tactic(auto, using(crate::proofs::Isolation::alone))]
pub fn branches_are_alone()
    ensures { BranchesAreAlone }
{}

/// The order in which commands were kept, lots came and actors were cast tells a branch nothing. Two states may keep the
/// same under each key, have the same lots and casts, and be equal in all else. A branch gets the same replies from both.
#[tactic(auto, using(crate::proofs::SameStates::order_tells_nothing))]
pub fn order_tells_nothing()
    ensures { OrderTellsNothing }
{}

/// Two histories in which a branch sees the same send it the same replies. Its catalogue and shop must be the same to it
/// at the start, in whatever order they list what they hold.
#[tactic(auto, using(crate::proofs::Isolation::isolated))]
pub fn branches_are_isolated()
    ensures { BranchesAreIsolated }
{}

/// Books that are sound stay sound, whatever is asked.
#[tactic(auto, using(crate::proofs::Soundness::stays_sound))]
pub fn books_stay_sound()
    ensures { StaySound }
{}

/// Books that are sound by greater sizes than the chain's limits stay so.
#[tactic(auto, using(crate::proofs::Soundness::stays_sound_within))]
pub fn books_stay_sound_within()
    ensures { StaySoundWithin }
{}

/// After any history each copy is in exactly one place, and out at most once.
#[tactic(auto, using(crate::proofs::Soundness::in_one_place))]
pub fn copies_are_in_one_place()
    ensures { CopiesAreInOnePlace }
{}

/// In sound books each mark is made, has exactly one place and goes with one film.
#[tactic(auto, using(crate::proofs::Soundness::in_custody))]
pub fn sound_books_are_in_custody()
    ensures { SoundBooksAreInCustody }
{}

/// If its shared rows are sound, the books of a chain in which no branch has asked anything are sound.
pub fn opening_is_sound()
    ensures { OpeningIsSound }
{}

/// The books of a new chain, with head office's token and no shared row, are sound.
#[tactic(auto, using(crate::proofs::Soundness::empty_sound))]
pub fn empty_is_sound()
    ensures { EmptyIsSound }
{}

/// A command that was accepted and comes again gets its first reply.
#[tactic(auto, using(crate::proofs::Resends::resent_again))]
pub fn resent_is_again()
    ensures { ResentIsAgain }
{}

/// The books of the chain that is shown and tested are sound.
#[tactic(auto, using(crate::proofs::Soundness::opening_books_sound))]
pub fn opening_books_are_sound()
    ensures { OpeningBooksAreSound }
{}

/// Whoever is found by a token is a caller whom the catalogue knows.
#[tactic(auto, using(crate::proofs::Callers::known_same))]
pub fn known_callers()
    ensures { CallersAreKnown }
{}

/// A command of head office that was accepted and comes again gets its first reply.
#[tactic(auto, using(crate::proofs::Resends::office_resent_again))]
pub fn office_resent_is_again()
    ensures { OfficeResentIsAgain }
{}

/// A history without the commands that come again leaves the same books, and gives the same replies to all other requests.
#[tactic(auto, using(crate::proofs::Repeats::without_repeats))]
pub fn repeats_change_nothing()
    ensures { RepeatsChangeNothing }
{}

/// In what a chain answers, a command that comes again gets its first reply's bytes and changes nothing.
#[tactic(auto, using(crate::proofs::Resends::runs_resend))]
pub fn runs_resend()
    ensures { RunsResend }
{}

/// In sound books each kept row is the only row of its caller under its key. So its command gets its reply in any history
/// that begins with these books.
#[tactic(auto, using(crate::proofs::Resends::kept_rows_kept))]
pub fn kept_rows_are_kept()
    ensures { KeptRowsAreKept }
{}

/// However often a chain is stopped and opened again, what it answers is one history, that of the requests that acted.
#[tactic(auto, using(crate::proofs::Stops::one_history))]
pub fn lives_are_one_history()
    ensures { LivesAreOneHistory }
{}

/// A request that comes again at once is answered alike, and acts once.
#[tactic(auto, using(crate::proofs::Stops::acts_once))]
pub fn each_acts_once()
    ensures { EachActsOnce }
{}

/// If a request was in flight at a stop and is sent again first, it acts once. It is answered as if it had not come before.
#[tactic(auto, using(crate::proofs::Stops::resent_first))]
pub fn a_resent_request_acts_once()
    ensures { ResentFirst }
{}

/// If later lives of a chain go on from the books that earlier lives left, all of them are one list of lives.
#[tactic(auto, using(crate::proofs::Stops::lives_follow))]
pub fn lives_that_follow()
    ensures { LivesFollow }
{}

/// A command is refused for the lowest of the refusals that hold, by their numbers.
#[tactic(auto, using(crate::proofs::Refusing::in_order))]
pub fn refusals_are_in_order()
    ensures { RefusalsAreInOrder }
{}

/// Books of version 1 that are sound become sound books, in which each rental has its terms.
#[tactic(auto, using(crate::proofs::Migration::migrated_sound))]
pub fn migrated_is_sound()
    ensures { MigratedIsSound }
{}

/// Sound books without the terms of their rentals are sound as books of version 1.
#[tactic(auto, using(crate::proofs::Migration::without_terms_sound))]
pub fn sound_without_terms()
    ensures { SoundWithoutTerms }
{}

/// When each rental in sound books of version 1 gets its terms, all balances stay as they were. The same rentals are
/// overdue as before.
#[tactic(auto, using(crate::proofs::Migration::keeps_balances))]
pub fn migrated_keeps_balances()
    ensures { MigratedKeepsBalances }
{}

/// Each copy of a film that is here is in just one of two lists: the copies in stock, and the copies that aren't.
pub fn stock_is_split()
    ensures { StockIsSplit }
{}

/// Somebody has a copy exactly if it isn't in stock. The holder is named: the customer of its one rental without a return.
pub fn holders_are_told()
    ensures { HoldersAreTold }
{}

/// An overdue rental is out, its copy belongs to the branch, and its row names the customer who has the copy.
pub fn overdue_is_out()
    ensures { OverdueIsOut }
{}

/// A branch's sales by category add up to its sales, and head office is shown the branches' own rows.
pub fn sales_add_up()
    ensures { SalesAddUp }
{}

/// A rent raises its customer's balance by the film's rate, and a return by a dollar for each late day. A payment lowers it
/// by its amount. Nothing else changes a balance except head office's choice of the rule.
#[tactic(auto, using(crate::proofs::Balances::follow_acts))]
pub fn balances_follow_acts()
    ensures { BalancesFollowActs }
{}

/// A branch has made as many copies as its accepted imports have rows, and nothing else makes one.
#[tactic(auto, using(crate::proofs::Imports::of_imports))]
pub fn copies_are_of_imports()
    ensures { CopiesAreOfImports }
{}

/// The commands that were accepted make the books, alone and in their order, and are answered as they were. The same holds
/// if any of the other events are among them.
pub fn books_are_of_accepted()
    ensures { BooksAreOfAccepted }
{}

/// The kept commands are the accepted ones, in the order of each caller.
#[tactic(auto, using(crate::proofs::Reentered::are_kept))]
pub fn accepted_are_kept()
    ensures { AcceptedAreKept }
{}

/// After a disk is lost, a copy of it and the accepted commands bring its books back. All commands may be sent again, or
/// only the commands that came after the copy.
pub fn lost_is_brought_back()
    ensures { LostIsBroughtBack }
{}

/// Two histories in which a branch sees the same leave it in the same state, in whatever order all else came.
pub fn order_is_within_views()
    ensures { OrderIsWithinViews }
{}

/// Requests of two branches may come in either order, with one exception. If one is a dispatch to the other branch, the
/// other may not be its receipt there, or a reading.
pub fn branches_commute()
    ensures { BranchesCommute }
{}

/// A command of a branch and one of head office may come in either order, if the branch's doesn't read what the other
/// changes.
pub fn office_commutes()
    ensures { OfficeCommutes }
{}

/// Two books may differ only in how the branches' rows are mixed. Then each request but a list of arrivals, and each command
/// of head office, is answered alike and leaves such books.
pub fn alike_stay_alike()
    ensures { AlikeStayAlike }
{}

/// Two neighbouring requests of a history may change places if they may come in either order, and so may others after them.
/// Each is answered as it was, and the books are alike.
pub fn order_may_differ()
    ensures { OrderMayDiffer }
{}

/// Such requests may come in any order in which no two change places that may not. Each caller gets the same replies,
/// and the books are alike.
pub fn any_order_tells_alike()
    ensures { AnyOrderTellsAlike }
{}

/// After a disk is lost, its books are brought back alike also if the commands are sent again in another such order.
pub fn lost_is_brought_back_alike()
    ensures { LostIsBroughtBackAlike }
{}
