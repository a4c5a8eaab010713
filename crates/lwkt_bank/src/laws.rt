//! What the bank's rule is for, as theorems.
ghost use Rattle.lwkt_bank.specs.Laws.{RuleShowsSafety, StatesAreReached, ViewsDecide, OpeningIsDeclared, SplitIsNoDeed, JoinIsNoDeed, SpentIsNoDeed, MadeAsNoted, AllMadeAsNoted, NothingUnnoted, LookIsLoad, ExchangeIsTake, ExchangeIsShare, AddIsAgain, OrIsMark, SubIsGiveOne, SubIsGiveClean, AddIsGiveWritten, CellLoadIsRead, CellStoreIsWrite, TallyStoreIsWrite, AccessIsReadBlob, AccessIsWriteBlob, DeedsAreAppended};
ghost use Rattle.lwkt_bank.specs.Rule.{Bench};
ghost use Rattle.lwkt_bank.specs.Ledger.{Ledger};
ghost use Rattle.lwkt_bank.specs.Holdings.{TakingAdds, AgainAdds, GivingRemoves, OthersKeep, NothingCounts, AddedCounts};

use crate::rules::{BankRule, Key};
use crate::views::View;
use atomic_table::TableRule;
use lwkt_base::Blob;

/// Every state of the table that meets the rule shows a safe machine of the model, holders and tallies by processor, and each
/// view knows what is true of it. The kit keeps the rule between any two steps of any number of seats.
pub fn rule_shows_safety()
    ensures { RuleShowsSafety }
{}

/// Every state that meets the rule is reached from the opening by a run of the model: there is one history of the deeds of all
/// seats, of which each seat has its processor's part, and words and views decide it.
pub fn states_are_reached()
    ensures reached { StatesAreReached }
    ensures decided { ViewsDecide }
{}

/// The table at the opening shows the machine that is declared: no mark is set, nothing is held or added.
pub fn opening_is_declared()
    ensures { OpeningIsDeclared }
{}

/// Whatever a play of a seat notes is what it did to the words, and where it notes nothing, it has changed nothing. This is so
/// of any play that keeps the rule, not only of those that there are.
pub fn made_as_noted()
    ensures made { MadeAsNoted }
    ensures nothing { NothingUnnoted }
{}

/// Any number of deeds that a play notes at once are done one after another between the machines shown before and after it.
/// This too is so of any play that keeps the rule, and says with what the history has grown: nothing else was done.
pub fn all_made_as_noted()
    ensures { AllMadeAsNoted }
{}

/// Each kind of step leads from a state of the rule to one of the rule, in which the history has one deed more, that of the
/// kind: its event relates the machines shown before and after it. A seat that is made or taken back is no deed.
pub fn steps_are_deeds()
    ensures look { LookIsLoad }
    ensures take { ExchangeIsTake }
    ensures share { ExchangeIsShare }
    ensures again { AddIsAgain }
    ensures mark { OrIsMark }
    ensures give_one { SubIsGiveOne }
    ensures give_clean { SubIsGiveClean }
    ensures give_written { AddIsGiveWritten }
    ensures read { CellLoadIsRead }
    ensures store { CellStoreIsWrite }
    ensures raise { TallyStoreIsWrite }
    ensures read_blob { AccessIsReadBlob }
    ensures write_blob { AccessIsWriteBlob }
    ensures split { SplitIsNoDeed }
    ensures join { JoinIsNoDeed }
{}

/// A spent view more among the views, as a look from outside leaves one, is no deed.
pub fn looks_from_outside_are_no_deeds()
    ensures { SpentIsNoDeed }
{}

/// The deeds that a call's contract names are its seat's new events and steps, in order.
pub fn deeds_are_appended()
    ensures { DeedsAreAppended }
{}

/// What a seat holds after each call: one reference more, one less, or as before.
pub fn calls_change_holdings()
    ensures taking { TakingAdds }
    ensures again { AgainAdds }
    ensures giving { GivingRemoves }
    ensures others { OthersKeep }
{}

/// How many references a holding has in all.
pub fn references_are_counted()
    ensures nothing { NothingCounts }
    ensures added { AddedCounts }
{}

/// The rule that the bank's table keeps, which the type of `Bank::shared` names, is that of the theorems here.
pub fn bank_keeps_that_rule()
    ensures { (key : Key) (s : Bench) → (⟦<BankRule as TableRule<Blob, View, Key>>⟧.holds key s → Ledger key.plans.items key.cpus s) × (Ledger key.plans.items key.cpus s → ⟦<BankRule as TableRule<Blob, View, Key>>⟧.holds key s) }
{}
