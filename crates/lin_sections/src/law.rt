//! What holds of physical values and their texts, and of differences between LDFs.

ghost use Rattle.lin_sections.specs.DecimalLaws.{ShownIsRead};
ghost use Rattle.lin_sections.specs.DiffLaws.{SilenceIsSameness, SilenceKeepsBytes, SilenceKeepsTimes};

/// The text of a decimal below 10 ^ 14 in size is read as its value.
pub fn shown_is_read()
    ensures { ShownIsRead }
{}

/// Two LDFs have no differences exactly if they have the same things, facts and entries.
pub fn silence_is_sameness()
    ensures { SilenceIsSameness }
{}

/// Without a difference of the class `bytes`, each frame and each signal of the old LDF is in the new one.
pub fn silence_keeps_bytes()
    ensures { SilenceKeepsBytes }
{}

/// Without a difference of the class `timing`, each schedule table of the old LDF is in the new one.
pub fn silence_keeps_times()
    ensures { SilenceKeepsTimes }
{}
