//! What the book's rule is for, as theorems. The functions do nothing: their contracts are the theorems.
ghost use Rattle.atomic_table.specs.Table.{State};
ghost use Rattle.lwkt_base.specs.declared.records.Rec.{Rec};
ghost use Rattle.lwkt_msg.specs.declared.views.Key.{Key};
ghost use Rattle.lwkt_msg.specs.declared.views.View.{View};
ghost use Rattle.lwkt_msg.specs.Ledger.{Ledger};
ghost use Rattle.lwkt_msg.specs.Records.{FoundIsWhatWasPut, HistoryDecidesRecords, HistoryDecidesRequests};
ghost use Rattle.lwkt_msg.specs.Laws.{RuleShowsSafety, EachSendAtMostOnce, StatesAreReached, HistoryDecidesCounts, ViewsDecide, OpeningIsDeclared, LoadIsLook, LostExchangeIsLook, HandingOutIsLook, StoreIsSend, ExchangeIsTake, AddIsReply, StoreIsReap, ExchangeIsDrop, OrIsAbort, SeatingIsNoDeed, SpentIsNoDeed, MadeAsNoted, AllMadeAsNoted, NothingUnnoted, DeedsAreAppended};

use crate::rules::BookRule;
use crate::views::{Key, View};
use atomic_table::TableRule;
use lwkt_base::Rec;

/// Every state of the table that meets the rule shows a safe machine of the model: every message has one owner, and each send
/// was taken or dropped at most once and replied to at most once. The kit keeps the rule between any two steps of any number
/// of seats.
pub fn rule_shows_safety()
    ensures safe { RuleShowsSafety }
    ensures once { EachSendAtMostOnce }
{}

/// Every state that meets the rule is reached from the opening by a run of the model: there is one history of the deeds of all
/// seats, of which each seat has seen the front up to its own last deed, and words and views decide it. How often each thing
/// was done with a message is how many of its events did it.
pub fn states_are_reached()
    ensures reached { StatesAreReached }
    ensures counted { HistoryDecidesCounts }
    ensures decided { ViewsDecide }
{}

/// The table at the opening shows the messages that are declared, and no deed is done.
pub fn opening_is_declared()
    ensures { OpeningIsDeclared }
{}

/// Whatever a play of a seat notes is what it did to the words and records, and where it notes nothing, it has changed nothing.
/// This is so of any play that keeps the rule, not only of those that there are.
pub fn made_as_noted()
    ensures made { MadeAsNoted }
    ensures nothing { NothingUnnoted }
{}

/// Any number of deeds that a play notes at once are done one after another between the messages before and after it. This too
/// is so of any play that keeps the rule, and says with what the history has grown: nothing else was done.
pub fn all_made_as_noted()
    ensures { AllMadeAsNoted }
{}

/// Each kind of step leads from a state of the rule to one of the rule, in which the history has one deed more, that of the
/// kind: a look, or its event. A seat that is made, cut off or taken back is no deed.
pub fn steps_are_deeds()
    ensures loads { LoadIsLook }
    ensures lost { LostExchangeIsLook }
    ensures handing_out { HandingOutIsLook }
    ensures sends { StoreIsSend }
    ensures takes { ExchangeIsTake }
    ensures replies { AddIsReply }
    ensures reaps { StoreIsReap }
    ensures drops { ExchangeIsDrop }
    ensures requests { OrIsAbort }
    ensures seating { SeatingIsNoDeed }
{}

/// A spent view more among the views, as a look from outside leaves one, is no deed.
pub fn looks_from_outside_are_no_deeds()
    ensures { SpentIsNoDeed }
{}

/// What a take or a drop found is what the last send put there, and what a reap found is that with what the one reply since put
/// there. A message that is away has a request to abort exactly if its origin has made one since the last send, and one at rest
/// has none.
pub fn history_decides_records()
    ensures found { FoundIsWhatWasPut }
    ensures away { HistoryDecidesRecords }
    ensures asked { HistoryDecidesRequests }
{}

/// The deeds that a call's contract names are its seat's new events and steps, in order.
pub fn deeds_are_appended()
    ensures { DeedsAreAppended }
{}

/// The rule that the book's table keeps, which the type of `MsgBook::shared` names, is that of the theorems here.
pub fn book_keeps_that_rule()
    ensures { (key : Key) (s : State Rec View) → (⟦<BookRule as TableRule<Rec, View, Key>>⟧.holds key s → Ledger key s) × (Ledger key s → ⟦<BookRule as TableRule<Rec, View, Key>>⟧.holds key s) }
{}
