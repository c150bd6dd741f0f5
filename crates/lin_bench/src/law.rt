//! What bench scripts say that are scripts of steps alone, and what rules and faults leave as it is.

ghost use Rattle.lin_bench.specs.FaultLaws.{IsAlikeBefore, NoFaultIsRefused, UnderNoneIsPlayed};
ghost use Rattle.lin_bench.specs.Plain.{LineByLine, NamedTexts, PlainScripts};
ghost use Rattle.lin_bench.specs.RuleLaws.{AddedByAnyFinish, AddedByHistoryAndRules, NoRuleAddsNothing};
ghost use Rattle.lin_bench.specs.RuleLaws.{KeepsDistinct, NoRuleChangesNothing, OffIsLeave, OldScripts, OrderOfRules};

/// A script without long lines, parameters and repetition says what its lines say one by one. A script that
/// `replay` reads says the same steps as a bench script, and makes and expects nothing else; and so does a
/// text of steps with the cluster's names.
pub fn plain_scripts_say_the_same()
    ensures lines { LineByLine }
    ensures plain { PlainScripts }
    ensures named { NamedTexts }
{}

/// Where no rule is in force, nothing is added to the steps of lines. What rules add after a finish
/// is told by the history and the rules alone, whoever gives the finish.
pub fn rules_alone_add_steps()
    ensures nothing { NoRuleAddsNothing }
    ensures unchanged { NoRuleChangesNothing }
    ensures any_finish { AddedByAnyFinish }
    ensures alone { AddedByHistoryAndRules }
{}

/// Rules are for different nodes, states and patterns, and lines keep them so. Of such rules, in whatever
/// order, the same one applies to a message. If only one of them matches it, it is the first that does.
pub fn order_of_rules_is_free()
    ensures order { OrderOfRules }
    ensures distinct { KeepsDistinct }
    ensures old { OldScripts }
{}

/// In a slot, a responder that is off is one that leaves its response out.
pub fn responders_off_leave_responses_out()
    ensures { OffIsLeave }
{}

/// A play under no fault is a play. A step that a fault makes is never refused. A line comes to what it
/// comes to undisturbed if the first slot of no fault is opened by it, or before.
pub fn faults_change_their_slots_alone()
    ensures none { UnderNoneIsPlayed }
    ensures done { NoFaultIsRefused }
    ensures before { IsAlikeBefore }
{}
