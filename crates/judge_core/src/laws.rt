//! Laws over the definitions of specs/, for proofs above: each function carries one law and does nothing.

ghost use Rattle.judge_core.specs.FiveRules.{DistanceByFiveRules};
ghost use Rattle.judge_core.specs.MoreTables.{AddingKeepsTheRest, AskingAgainEnds, FinalStaysFinal, GamesDependOnRulings, MoreTablesAnswerTheSame, WhatIsMissingStaysMissing, WhatIsNotFinalCanBeOpened};
ghost use Rattle.judge_core.specs.DeterminedLaws.{CompletionsExist, DeterminedAnswersAreOne, DeterminedDistanceIsOne, DeterminedMoveIsAsProbed, DeterminedValueIsOne, FirstDeterminedMoveIsBest, FirstDeterminedMoveWinsWithinRule};
ghost use Rattle.judge_core.specs.Known.{KnownMeetsItsRule, KnownStaysKnown, ValueIsKnown};
ghost use Rattle.judge_core.specs.RootLaws.{FirstMoveIsBest, FirstMoveWinsWithinRule, FirstMoveKeepsTheValue, NearestWinIsTheDistance, NoCaptureIsBetter};
ghost use Rattle.judge_core.specs.Laws.{WdlMeetsItsRule, DtzMeetsItsRules, GameHasOneOutcome, NoDelayIsTheRuling, FirstVerdictInWords, FirstVerdictLooksBack, IllegalStaysIllegal, OneMoveMore};

use place_index::few_men_have_tables;

/// The value of a position follows from the values after its captures by its rule.
pub fn wdl_meets_its_rule()
    ensures { WdlMeetsItsRule }
{}

/// The value that is known follows from those after the captures by its rule.
pub fn known_meets_its_rule()
    ensures { KnownMeetsItsRule }
{}

/// Where the tables say what a position is worth, this is known: `Set::known_wdl` answers as `Set::wdl` where that has a value.
pub fn value_is_known()
    ensures { ValueIsKnown }
{}

/// What is known stays so in a set that has more tables.
pub fn known_stays_known()
    ensures { KnownStaysKnown }
{}

/// The distance of a position in scope follows from the distances after its moves by its rules, whatever the bytes of
/// the tables are.
pub fn dtz_meets_its_rules()
    ensures { DtzMeetsItsRules }
{}

/// The distance of a position in scope is the one that the five rules give, and they give no other. The first is the
/// fault of the value, or none for a draw. Then come captures, pawn moves, the own table, and the moves that neither
/// take a man nor move a pawn.
pub fn distance_by_five_rules()
    ensures { DistanceByFiveRules }
{
    few_men_have_tables();
}

/// A game has one outcome at most.
pub fn game_has_one_outcome()
    ensures { GameHasOneOutcome }
{}

/// Without delay the verdict at a ply is its ruling.
pub fn no_delay_is_the_ruling()
    ensures { NoDelayIsTheRuling }
{}

/// The first verdict is that of the least ply whose ruling is a mate or a stalemate, or has held for as many plies as the delay
/// says.
pub fn first_verdict_in_words()
    ensures { FirstVerdictInWords }
{}

/// The first verdict at a ply depends on the moves before that ply alone.
pub fn first_verdict_looks_back()
    ensures { FirstVerdictLooksBack }
{}

/// A list with a move that isn't legal in its turn stays illegal, whatever follows.
pub fn illegal_stays_illegal()
    ensures { IllegalStaysIllegal }
{}

/// One move more is played from the position that the moves before it lead to.
pub fn one_move_more()
    ensures { OneMoveMore }
{}

/// The first root move has a value wherever some move has one, and no move has a better one.
pub fn first_move_is_best()
    ensures { FirstMoveIsBest }
{}

/// Where some move wins within the rule of fifty moves, the first root move wins, and its distance is no greater number.
pub fn first_move_wins_within_rule()
    ensures { FirstMoveWinsWithinRule }
{}

/// Where the tables agree at a position, the first root move keeps its value, and so a win.
pub fn first_move_keeps_the_value()
    ensures { FirstMoveKeepsTheValue }
{}

/// No capture but a mate is worth more than the position, whatever the bytes of the tables are.
pub fn no_capture_is_better()
    ensures { NoCaptureIsBetter }
{}

/// A win whose distance comes from the moves that neither take a man nor move a pawn is as far as the nearest win by
/// one of them, whatever the bytes of the tables are.
pub fn nearest_win_is_the_distance()
    ensures { NearestWinIsTheDistance }
{}

/// Every set can be completed by more tables.
pub fn completions_exist()
    ensures { CompletionsExist }
{}

/// A position has one determined value at most.
pub fn determined_value_is_one()
    ensures { DeterminedValueIsOne }
{}

/// A position has one determined distance at most.
pub fn determined_distance_is_one()
    ensures { DeterminedDistanceIsOne }
{}

/// A position has one determined reading and one distance that is told: a value or a fault, a distance or a fault.
pub fn determined_answers_are_one()
    ensures { DeterminedAnswersAreOne }
{}

/// Each determined root move is by what the probes tell of the position after it, its value and its distance.
pub fn determined_move_is_as_probed()
    ensures { DeterminedMoveIsAsProbed }
{}

/// The first of the determined root moves has a value wherever some move has one, and no move has a better one.
pub fn first_determined_move_is_best()
    ensures { FirstDeterminedMoveIsBest }
{}

/// Where some determined root move wins within the rule of fifty moves, the first one wins, and its distance is no
/// greater number.
pub fn first_determined_move_wins_within_rule()
    ensures { FirstDeterminedMoveWinsWithinRule }
{}

/// A set that has more tables answers the same, but where the first set misses a table that it has.
pub fn more_tables_answer_the_same()
    ensures { MoreTablesAnswerTheSame }
{}

/// The table that an answer names as missing is missing, and the answer stays until it is there.
pub fn what_is_missing_stays_missing()
    ensures { WhatIsMissingStaysMissing }
{}

/// An answer is final for a set that has more tables, or this has a table of the material that the answer names.
pub fn what_is_not_final_can_be_opened()
    ensures { WhatIsNotFinalCanBeOpened }
{}

/// Whoever opens a table that an answer misses, and asks again, comes to an answer that is final, after no more rounds than
/// tables were opened.
pub fn asking_again_ends()
    ensures { AskingAgainEnds }
{}

/// A table that is added where there was none changes nothing else: all others are kept.
pub fn adding_keeps_the_rest()
    ensures { AddingKeepsTheRest }
{}

/// An answer that is final for the whole set is final for each set between, and stays final there.
pub fn final_stays_final()
    ensures { FinalStaysFinal }
{}

/// The outcome of a game, and where it stands, depend on the tables by the rulings alone of the plies up to there.
pub fn games_depend_on_rulings()
    ensures { GamesDependOnRulings }
{}
