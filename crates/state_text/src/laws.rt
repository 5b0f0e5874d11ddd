ghost use Rattle.state_text.specs.Fault.{NoneInStateText, OneWrongLine};
ghost use Rattle.state_text.specs.Text.{OneValue};

/// A text has one value. A value has one text in each version, since `state_text` is a function.
pub fn one_value()
    ensures { OneValue }
{}

/// A text has at most one first wrong line, and a state text has none.
pub fn one_wrong_line()
    ensures one { OneWrongLine }
    ensures none { NoneInStateText }
{}
