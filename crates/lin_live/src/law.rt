//! Laws of lines and of what is answered to them.

ghost use Rattle.std.specs.Prelude.{◌≡◌, ◌++◌, ℕ, List};
ghost use Rattle.std.specs.List.{AllByRecursion, join_with_byte};
ghost use Rattle.lin_live.specs.Answers.{AnswersAreTheLog, AnswersAreWritten};
ghost use Rattle.lin_live.specs.GoingBack.{BackRestores, MarksStay, ParametersStay};
ghost use Rattle.lin_live.specs.Lines.{HasNoLf, pieces_at_lf};
ghost use Rattle.lin_live.specs.Play.{LiveIsPlay};
ghost use Rattle.lin_live.specs.Transcript.{state_after, transcript};

use crate::answering::Answering;

/// What is answered to some lines and then to others is what is answered to all of them; so the
/// transcript of a beginning of lines is a beginning of their transcript.
pub fn transcripts_split<S: Answering>()
    ensures { (s : S.State) (xs ys : List (List ℕ)) → transcript S.reply s (xs ++ ys)
        ≡ transcript S.reply s xs ++ transcript S.reply (state_after S.reply s xs) ys }
{}

/// If no line goes back to a mark, the entries in the answers of a session are those by which its log
/// grew, in order, and a transcript has nothing but their text and a last line for each line.
pub fn answers_tell_the_log()
    ensures entries { AnswersAreTheLog }
    ensures text { AnswersAreWritten }
{}

/// Answered in hand, the lines of a bench script that `lin_bench::play` plays to its end come to the
/// same bench, with the same log, and an expectation isn't met where one isn't met there.
pub fn live_is_play()
    ensures { LiveIsPlay }
{}

/// Going back to a mark restores the bench at it, with its history, rules and consumed events, whatever the
/// lines since then did, if the mark is still there. It is if none of them sets a mark or goes back to one.
/// Parameters stay as they are.
pub fn back_restores()
    ensures bench { BackRestores }
    ensures mark { MarksStay }
    ensures parameters { ParametersStay }
{}

/// The pieces of an input have no LF in them, and with one between each two they are the input.
pub fn pieces_come_back()
    ensures clean { (bytes : List ℕ) → AllByRecursion HasNoLf (pieces_at_lf bytes) }
    ensures same { (bytes : List ℕ) → join_with_byte 10 (pieces_at_lf bytes) ≡ bytes }
{}
