//! What is written in a language is read again in it, and what is said by numbers is said in each.

ghost use Rattle.lin_log.specs.Laws.{LinesAgain, LinesStay, TextsAgain, TextsStay};

/// In each language whose names are words, no two of a kind alike, and no numbers: the line of a
/// port and a step says them, and the text of a log says the log's steps, whatever its replies
/// tell.
pub fn logs_say_their_steps()
    ensures lines { LinesAgain }
    ensures texts { TextsAgain }
{}

/// A line that says something by numbers says it in each language, and a script its steps.
pub fn numbers_say_the_same()
    ensures lines { LinesStay }
    ensures texts { TextsStay }
{}
